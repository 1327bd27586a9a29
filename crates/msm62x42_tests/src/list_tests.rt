// One list of calls, with all its answers.
use crate::host::*;
use msm62x42_runs::call::PartCall;
use refusals::Refusal;
use std::test::Fail;
use timekeeping::call::CoreAnswer;
use timekeeping::work::work_calls;

// Held over the end of an hour and read, with refusals among them.
const CALLS: [PartCall; 16] = [
    PartCall::Pulses(32_760),
    PartCall::Write(13, 5),
    PartCall::Read(13),
    PartCall::Read(0),
    PartCall::Pulses(20),
    PartCall::Pulses(1_048_577),
    PartCall::Read(4),
    PartCall::Read(16),
    PartCall::Load(0, 7, 2),
    PartCall::Look(15),
    PartCall::Look(16),
    PartCall::Write(14, 15),
    PartCall::Write(0, 16),
    PartCall::Deselect,
    PartCall::Deselect,
    PartCall::Look(17),
];

// Apart from the calls, which are worked as one slice.
const ANSWERS: [Result<CoreAnswer, Refusal>; 16] = [
    Ok(CoreAnswer::Accepted),
    Ok(CoreAnswer::Accepted),
    Ok(CoreAnswer::Byte(1)),
    Ok(CoreAnswer::Byte(9)),
    Ok(CoreAnswer::Accepted),
    Err(Refusal::TooManyPulses),
    Ok(CoreAnswer::Byte(3)),
    Err(Refusal::NoSuchCell),
    Err(Refusal::NoSuchMoment),
    Err(Refusal::ShortBuffer),
    Ok(CoreAnswer::Registers([9, 5, 9, 5, 3, 1, 7, 1, 7, 0, 6, 2, 5, 1, 0, 4])),
    Ok(CoreAnswer::Accepted),
    Err(Refusal::NoSuchCell),
    Ok(CoreAnswer::Accepted),
    Ok(CoreAnswer::Accepted),
    Ok(CoreAnswer::Registers([0, 0, 0, 0, 4, 1, 7, 1, 7, 0, 6, 2, 5, 2, 0, 4])),
];

#[test]
fn a_list_and_its_answers(rt: HostRuntime) -> Result<(), Fail> {
    let mut part = part_at(50_399, TWENTY_FOUR)?;
    let mut answers = [Err(Refusal::NoSuchCell); 18];
    assert_eq!(rt; work_calls(&mut part, &CALLS, &mut answers), 16);
    assert_eq!(rt; &answers[..16], ANSWERS.as_slice());
    assert_eq!(rt; &answers[16..], [Err(Refusal::NoSuchCell); 2].as_slice());
    assert_eq!(rt; (part.core.position, part.core.is_held()), (12, false));
    Ok(())
}

// Room for fewer answers: so many calls are worked, and no more.
#[test]
fn a_list_with_little_room(rt: HostRuntime) -> Result<(), Fail> {
    let mut part = part_at(50_399, TWENTY_FOUR)?;
    let mut answers = [Err(Refusal::NoSuchCell); 4];
    assert_eq!(rt; work_calls(&mut part, &CALLS, &mut answers), 4);
    assert_eq!(rt; answers.as_slice(), &ANSWERS[..4]);
    assert_eq!(rt; part.core.position, 32_760);
    Ok(())
}
