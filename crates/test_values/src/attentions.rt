//! Conditions in their order, for the first nexus and the last.
use scsi_attention::{Attention, Attentions, AttnSet};
use test_assertions::{assert_equal, assert_holds};
use vtl_base::Nexus;

static ORDER: &'static [Attention] = &[
    Attention::PowerOn,
    Attention::MediumChanged,
    Attention::ReservationsPreempted,
    Attention::RegistrationsPreempted,
    Attention::ReservationsReleased,
    Attention::ModeChanged,
];

#[test]
fn a_set_has_its_conditions(rt: HostRuntime) {
    let mut set = AttnSet::empty();
    for attention in ORDER.iter().rev() {
        assert_holds!(rt; !set.contains(*attention));
        set.insert(*attention);
        assert_equal!(rt; set.first(), Some(*attention));
    }
    for attention in ORDER.iter() {
        assert_holds!(rt; set.contains(*attention));
        set.remove(*attention);
        assert_holds!(rt; !set.contains(*attention));
    }
    assert_equal!(rt; set.first(), None);
}

// Whether exactly these conditions are reported to a nexus, in this order, and then none.
fn reports(attentions: &mut Attentions, nexus: Nexus, conditions: &[Attention]) -> bool {
    for attention in conditions {
        if attentions.first(nexus) != Some(*attention) {
            return false;
        }
        attentions.clear(nexus, *attention);
    }
    attentions.first(nexus).is_none()
}

// The set of these conditions.
fn set_of(conditions: &[Attention]) -> AttnSet {
    let mut set = AttnSet::empty();
    for attention in conditions {
        set.insert(*attention);
    }
    set
}

#[test]
fn each_nexus_is_reported_its_own(rt: HostRuntime) {
    let (Some(first), Some(last)) = (Nexus::new(1), Nexus::new(64)) else {
        assert_holds!(rt; false, "a nexus");
        return;
    };
    let mut attentions = Attentions::all(set_of(ORDER));
    assert_holds!(rt; reports(&mut attentions, last, ORDER));
    attentions.establish_for_all(Attention::ModeChanged);
    assert_holds!(rt; reports(&mut attentions, last, &[Attention::ModeChanged]));
    assert_holds!(rt; reports(&mut attentions, first, ORDER));
    assert_holds!(rt; reports(&mut attentions, first, &[]));
}
