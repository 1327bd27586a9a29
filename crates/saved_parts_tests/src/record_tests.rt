// Records that calls leave are taken by the next call; those with a trim, a second, or a CE,
// transfer and hold that no part has are refused.
use clock_core::setting::Setting;
use msm62x42::part::Msm62x42;
use rx5c348a::part::Rx5c348a;
use saved_parts::answer::NO_SAVED_STATE;
use saved_parts::part62::Saved62;
use saved_parts::part348::Saved348;
use std::test::Fail;

const CE: u32 = 4;

const SCLK: u32 = 2;

fn record_of_348() -> Saved348 {
    Saved348::of(&Rx5c348a::power_on())
}

fn record_of_62() -> Saved62 {
    Saved62::of(&Msm62x42::power_on())
}

// Refused as no record, and left as it is.
fn is_no_348(record: Saved348) -> bool {
    let mut left = record;
    left.pins(0) == NO_SAVED_STATE && left.pulses(1) == NO_SAVED_STATE && left == record
}

fn is_no_62(record: Saved62) -> bool {
    let mut left = record;
    left.read(0) == NO_SAVED_STATE && left.write(15, 4) == NO_SAVED_STATE && left == record
}

// The record of a part with CE turned, with hold turned, and with its transfer begun or ended.
fn unfit_ones_are_refused(record: Saved348) -> bool {
    let mut ce_turned = record;
    ce_turned.ce = u8::from(record.ce == 0);
    let mut hold_turned = record;
    hold_turned.registers.core.hold = u16::from(record.registers.core.hold == 0);
    let mut transfer_turned = record;
    transfer_turned.transfer = record_of_348().transfer;
    transfer_turned.transfer.phase = if record.ce == 0 { 4 } else { 0 };
    is_no_348(ce_turned) && is_no_348(hold_turned) && is_no_348(transfer_turned)
}

// Accepted; and the record that it leaves is refused once one of the three is turned.
fn is_driven(record: &mut Saved348, levels: u32) -> bool {
    record.pins(levels) < 256 && unfit_ones_are_refused(*record)
}

// A burst read from register 0, level by level, with seconds that end meanwhile; then SCLK alone.
#[test]
fn records_of_a_348a(rt: HostRuntime) -> Result<(), Fail> {
    let mut record = record_of_348();
    assert!(rt; unfit_ones_are_refused(record));
    let to = Setting {
        moment: 59,
        weekday: 0,
        trim: 9,
        mode: 1,
    };
    assert_eq!(rt; record.load(to), 0);
    assert!(rt; is_driven(&mut record, CE));
    for bit in [0u32, 0, 0, 0, 0, 1, 0, 0, 0, 0, 0, 0, 0, 0, 0, 0, 1, 1] {
        assert!(rt; is_driven(&mut record, CE + SCLK + bit));
        assert_eq!(rt; record.pulses(20_000), 0);
        assert!(rt; is_driven(&mut record, CE + bit));
    }
    for levels in [0, SCLK, 0, SCLK, CE + SCLK, CE, 0] {
        assert!(rt; is_driven(&mut record, levels));
    }
    assert_eq!(rt; record.halt(), 0);
    assert!(rt; unfit_ones_are_refused(record));
    Ok(())
}

fn trimmed_ones_are_refused(record: Saved62) -> bool {
    let mut trimmed = record;
    trimmed.core.trim = 7;
    let mut longer = record;
    longer.core.second_length = 32_780;
    let mut shorter = record;
    shorter.core.second_length = 32_764;
    is_no_62(trimmed) && is_no_62(longer) && is_no_62(shorter)
}

// Held and released, over ends of seconds.
#[test]
fn records_of_a_62x42(rt: HostRuntime) -> Result<(), Fail> {
    let mut record = record_of_62();
    assert!(rt; trimmed_ones_are_refused(record));
    assert_eq!(rt; record.load(59, 0, 1), 0);
    for (hold, digit) in [(0u32, 0u32), (1, 0), (1, 0), (0, 2)] {
        assert_eq!(rt; record.write(13, hold), 0);
        assert_eq!(rt; record.pulses(32_768), 0);
        assert!(rt; trimmed_ones_are_refused(record));
        assert_eq!(rt; record.read(0), digit);
    }
    assert_eq!(rt; record.deselect(), 0);
    assert!(rt; trimmed_ones_are_refused(record));
    Ok(())
}
