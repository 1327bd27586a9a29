// Transfers as a host drives them.
use serial_transfer::phase::Landing;
use serial_transfer::transfer::Transfer;

// CE has risen, and a header is in.
fn headed(header: u8) -> Transfer {
    let mut transfer = Transfer::idle();
    transfer.begin();
    transfer.shift_in(header);
    transfer
}

fn landed(address: u8, byte: u8) -> Option<Landing> {
    Some(Landing { address, byte })
}

// What landed as six bytes were shifted in, from the rise of CE on.
fn landings_of(bytes: &[u8; 6]) -> [Option<Landing>; 6] {
    let mut transfer = Transfer::idle();
    transfer.begin();
    let mut landings = [None; 6];
    transfer.shift_bytes_in(bytes, &mut landings);
    landings
}

// SO as a number after each of the sixteen edges of a byte, rises and falls in turn.
// The register changes after the first rise, and SI is high: neither shows.
fn levels_of_byte(transfer: &mut Transfer, due_byte: u8) -> [u8; 16] {
    let mut levels = [0; 16];
    let mut byte = due_byte;
    // by number: two edges a bit, in one row
    for k in 0..8 {
        transfer.rise(byte);
        levels[2 * k] = u8::from(transfer.out());
        transfer.fall(1);
        levels[2 * k + 1] = u8::from(transfer.out());
        byte = byte.wrapping_add(1);
    }
    levels
}

// What a header does, seen from outside: the register due, what a byte behind it lands, and whether a header follows.
fn asked_by(header: u8) -> (Option<u8>, Option<Landing>, bool) {
    let mut transfer = headed(header);
    let due = transfer.due();
    let landing = transfer.shift_in(0x5A);
    (due, landing, transfer.awaits_header())
}

// By number, since all sixteen formats are tried.
fn asked_of(address: u8, format: u8) -> (Option<u8>, Option<Landing>, bool) {
    match format {
        8 => (None, landed(address, 0x5A), true),
        0 => (None, landed(address, 0x5A), false),
        12 => (Some(address), None, true),
        4 => (Some(address), None, false),
        _ => (None, None, false),
    }
}

#[test]
fn every_header(rt: HostRuntime) {
    for address in 0..16u8 {
        for format in 0..16u8 {
            assert_eq!(rt; asked_by(16 * address + format), asked_of(address, format));
        }
    }
}

#[test]
fn writes(rt: HostRuntime) {
    let single = landings_of(&[0x38, 0x59, 0xE8, 0x20, 0x00, 0x07]);
    assert_eq!(rt;
        single,
        [
            None,
            landed(3, 0x59),
            None,
            landed(14, 0x20),
            None,
            landed(0, 0x07),
        ]
    );
    let burst = landings_of(&[0xE0, 1, 2, 3, 4, 5]);
    assert_eq!(rt;
        burst,
        [
            None,
            landed(14, 1),
            landed(15, 2),
            landed(0, 3),
            landed(1, 4),
            landed(2, 5),
        ]
    );
    let deaf = landings_of(&[0x39, 0x38, 0x59, 0xE0, 1, 2]);
    assert_eq!(rt; deaf, [None; 6]);
}

#[test]
fn burst_read_over_the_wrap(rt: HostRuntime) {
    let registers = [0xA5, 0x5A, 0, 0, 0, 0, 0, 0, 0, 0, 0, 0, 0, 0, 0x80, 0x01];
    let mut given = [None; 4];
    headed(0xE4).shift_bytes_out(&registers, &mut given);
    assert_eq!(rt; given, [Some(0x80), Some(0x01), Some(0xA5), Some(0x5A)]);
}

#[test]
fn bytes_read_back(rt: HostRuntime) {
    for byte in [0x00, 0x01, 0x80, 0xA5, 0x5A, 0xFF] {
        assert_eq!(rt; headed(0x5C).shift_out(byte), Some(byte));
    }
    assert_eq!(rt; headed(0x58).shift_out(0xFF), None);
}

#[test]
fn out_over_a_single_read(rt: HostRuntime) {
    let mut transfer = headed(0x5C);
    assert_eq!(rt; u8::from(transfer.out()), 2);
    let levels = levels_of_byte(&mut transfer, 0xA5);
    assert_eq!(rt; levels, [1, 1, 0, 0, 1, 1, 0, 0, 0, 0, 1, 1, 0, 0, 1, 2]);
}

#[test]
fn out_over_a_burst_read(rt: HostRuntime) {
    let mut transfer = headed(0xF4);
    let first = levels_of_byte(&mut transfer, 0x0F);
    assert_eq!(rt; first, [0, 0, 0, 0, 0, 0, 0, 0, 1, 1, 1, 1, 1, 1, 1, 1]);
    let second = levels_of_byte(&mut transfer, 0xC2);
    assert_eq!(rt; second, [1, 1, 1, 1, 0, 0, 0, 0, 0, 0, 0, 0, 1, 1, 0, 0]);
    transfer.end();
    assert_eq!(rt; u8::from(transfer.out()), 2);
}

// Seven bits of a byte are dropped, and the next header starts afresh.
#[test]
fn ce_falls_within_a_byte(rt: HostRuntime) {
    let mut transfer = headed(0x38);
    for _ in 0..7 {
        assert_eq!(rt; transfer.fall(1), None);
    }
    transfer.end();
    transfer.begin();
    transfer.shift_in(0x48);
    assert_eq!(rt; transfer.shift_in(0x01), landed(4, 1));
}

#[test]
fn deafness_ends_with_ce(rt: HostRuntime) {
    let mut transfer = headed(0x39);
    transfer.shift_in(0x38);
    assert!(rt; !transfer.awaits_header());
    transfer.end();
    transfer.begin();
    assert!(rt; transfer.awaits_header());
}
