//! The bytes of sense data that no row shows, written by hand.
use scsi_sense::Sense;
use test_assertions::assert_equal;

// The bytes 0 to 15, and the two after them.
fn spelled(sense: &Sense) -> (u128, u8, u8) {
    let bytes = sense.bytes();
    let mut head = [0; 16];
    head.copy_from_slice(&bytes[..16]);
    (u128::from_be_bytes(head), bytes[16], bytes[17])
}

// The sense data of a medium or a device, and of a residue: bytes 0 to 15. Bytes 16 and 17 are 0 in all.
#[test]
fn bytes_of_sense_data_that_no_row_shows(rt: HostRuntime) {
    let rows: [(Sense, u128); 8] = [
        (Sense::store_full(), 0x70000500_0000000a_00000000_55040000),
        (
            Sense::medium_failed(),
            0x70000400_0000000a_00000000_44000000,
        ),
        (
            Sense::keeper_failed(),
            0x70000400_0000000a_00000000_44000000,
        ),
        (Sense::write_error(), 0x70000300_0000000a_00000000_0c000000),
        (
            Sense::deferred_write_error(),
            0x71000300_0000000a_00000000_0c000000,
        ),
        (
            Sense::insufficient_resources(),
            0x70000b00_0000000a_00000000_55030000,
        ),
        (
            Sense::volume_overflow(None),
            0x70004d00_0000000a_00000000_00020000,
        ),
        (
            Sense::incorrect_length(0x1234_5678),
            0xf0002012_3456780a_00000000_00000000,
        ),
    ];
    for (sense, bytes) in rows {
        assert_equal!(rt; spelled(&sense), (bytes, 0, 0));
    }
}
