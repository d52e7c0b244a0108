//! The generation of reservations; a keeper whose saves fail.
mod keeping;

use pr_core::Reservations;
use scsi_lists::PrOut;
use std::process::Abort;
use test_assertions::assert_equal;
use vtl_base::Nexus;

const ONE: PrOut = PrOut::Register {
    key: 0,
    new_key: 0xa1,
    aptpl: false,
};

const OTHER: PrOut = PrOut::Register {
    key: 0,
    new_key: 0xb2,
    aptpl: false,
};

// These reservations after each of these hosts has given its order.
fn after(rt: &impl Abort, before: Reservations, orders: &[(u8, PrOut)]) -> Reservations {
    let mut reservations = before;
    for (number, order) in orders {
        let host = Nexus::new(*number).expect(rt, "a host");
        let _ = reservations.pr_out(host, order);
    }
    reservations
}

#[test]
fn the_generation_wraps(rt: HostRuntime) {
    let mut state = *Reservations::empty().state();
    state.generation = 4_294_967_295;
    let reservations = Reservations::of(state).expect(&rt, "nothing is registered");
    let reservations = after(&rt, reservations, &[(1, ONE)]);
    assert_equal!(rt; reservations.state().generation, 0);
}
