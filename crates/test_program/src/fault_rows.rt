//! What faults and refusals are called.
use beanpax::{ProgramFault, fault_number};
use chronicle::CheckFault;
use chronicle_text::ReadFault;
use hall::HallError;
use leader::LeaderError;
use slot_log::LearnError;
use std::test::Fail;
use world::WorldError;

#[test]
fn a_fault_is_told_by_its_name(rt: HostRuntime) -> Result<(), Fail> {
    let faults = [
        (ProgramFault::OutOfMemory, "1 out of memory"),
        (ProgramFault::BadNumber, "6 bad number"),
        (ProgramFault::ReadFailed, "7 read failed"),
        (ProgramFault::WriteFailed, "8 write failed"),
        (ProgramFault::ServiceStopped, "9 service stopped"),
        (ProgramFault::ListenFailed, "12 cannot listen"),
        (ProgramFault::FileFailed, "13 file failed"),
        (ProgramFault::ThreadFailed, "14 cannot start a thread"),
        (ProgramFault::LogDamaged(7), "15 log damaged: line 7"),
    ];
    for (fault, text) in faults {
        let number = fault_number(fault);
        let told = format!(in rt.alloc(); "{number} {fault}")?;
        assert_eq!(rt; told.as_str(), text);
    }
    Ok(())
}

#[test]
fn a_refusal_of_a_leader_or_a_log_is_told_by_its_name(rt: HostRuntime) -> Result<(), Fail> {
    let clash = format!(in rt.alloc(); "{}", LearnError::Clash)?;
    assert_eq!(rt; clash.as_str(), "clash");
    let no_ballot_left = format!(in rt.alloc(); "{}", LeaderError::NoBallotLeft)?;
    assert_eq!(rt; no_ballot_left.as_str(), "no ballot left");
    Ok(())
}

#[test]
fn want_of_memory_for_a_dump_is_told_by_its_name(rt: HostRuntime) -> Result<(), Fail> {
    let reading = format!(in rt.alloc(); "{}", ReadFault::OutOfMemory)?;
    assert_eq!(rt; reading.as_str(), "out of memory");
    let checking = format!(in rt.alloc(); "{}", CheckFault::OutOfMemory)?;
    assert_eq!(rt; checking.as_str(), "out of memory");
    Ok(())
}

#[test]
fn a_refusal_of_a_hall_is_told_by_its_name(rt: HostRuntime) -> Result<(), Fail> {
    let refusals = [
        (HallError::OutOfMemory, "out of memory"),
        (HallError::NoSuchNode, "no such node"),
        (HallError::BadNumber, "bad number"),
        (HallError::Full, "full"),
        (HallError::Busy, "busy"),
    ];
    for (refusal, text) in refusals {
        let told = format!(in rt.alloc(); "{refusal}")?;
        assert_eq!(rt; told.as_str(), text);
    }
    Ok(())
}

#[test]
fn a_refusal_of_a_world_is_told_by_its_name(rt: HostRuntime) -> Result<(), Fail> {
    let refusals = [
        (WorldError::OutOfMemory, "out of memory"),
        (WorldError::NoSuchLetter, "no such letter"),
        (WorldError::NoSuchNode, "no such node"),
        (WorldError::BadNumber, "bad number"),
        (WorldError::Full, "full"),
    ];
    for (refusal, text) in refusals {
        let told = format!(in rt.alloc(); "{refusal}")?;
        assert_eq!(rt; told.as_str(), text);
    }
    Ok(())
}
