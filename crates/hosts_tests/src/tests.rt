use crate::samples::sample_calls;
use base::{Refusal, ShortText};
use host::{Host, Line, Trace, ask, write_trace};
use hosts::{AnswerList, Rule, RuleTable, Rules, Transcript};
use std::test::Fail;

fn rule(script: u8, action: u8, status: u8) -> Rule {
    Rule {
        script,
        action,
        status,
    }
}

// By the numbers that manuals print, so that these are tested too.
fn is_refused(refusal: Refusal, number: u8, place: usize, layer: u8) -> bool {
    refusal.reason.number() == number && refusal.place == place && refusal.layer.number() == layer
}

#[test]
fn first_matching_rule(rt: HostRuntime) -> Result<(), Fail> {
    let calls = sample_calls().ok_or("no calls")?;
    // there is no script 5; the rule for every prerm stands before the one for every upgrade
    let rules = [rule(5, 0, 1), rule(3, 4, 7), rule(3, 0, 8), rule(0, 2, 9)];
    let mut host = RuleTable::new(Rules::new(&rules)?);
    assert_eq!(rt; host.run(calls.remove), 7);
    assert_eq!(rt; host.run(calls.upgrade), 8);
    assert_eq!(rt; host.run(calls.configure), 0);
    assert_eq!(rt; host.count(), 3);
    Ok(())
}

#[test]
fn rules_within_their_limit(rt: HostRuntime) -> Result<(), Fail> {
    let calls = sample_calls().ok_or("no calls")?;
    let rules = [rule(0, 0, 4); 33];
    let mut host = RuleTable::new(Rules::new(&rules[0..32])?);
    assert_eq!(rt; host.run(calls.configure), 4);
    let Err(refusal) = Rules::new(&rules) else {
        return Err(Fail::new("33 rules are taken"));
    };
    assert!(rt; is_refused(refusal, 3, 0, 2));
    Ok(())
}

#[test]
fn transcript_left_and_come_back_to(rt: HostRuntime) -> Result<(), Fail> {
    let calls = sample_calls().ok_or("no calls")?;
    let configured = calls.configure;
    let removed = calls.remove;
    let lines = [Line::new(configured, 0), Line::new(removed, 1)];
    let mut host = Transcript::new(&lines);
    assert_eq!(rt; host.run(removed), 127);
    assert_eq!(rt; host.run(configured), 0);
    assert_eq!(rt; host.run(configured), 127);
    assert_eq!(rt; host.run(removed), 1);
    assert_eq!(rt; host.run(removed), 127);
    assert_eq!(rt; host.count(), 5);
    Ok(())
}

#[test]
fn answers_in_turn(rt: HostRuntime) -> Result<(), Fail> {
    let calls = sample_calls().ok_or("no calls")?;
    let call = calls.configure;
    let mut host = AnswerList::new(&[0, 2]);
    assert_eq!(rt; host.run(call), 0);
    assert_eq!(rt; host.run(call), 2);
    assert_eq!(rt; host.run(call), 0);
    assert_eq!(rt; host.run(call), 0);
    Ok(())
}

#[test]
fn no_run_without_room(rt: HostRuntime) -> Result<(), Fail> {
    let calls = sample_calls().ok_or("no calls")?;
    let call = calls.upgrade;
    let other = calls.configure;
    let mut host = AnswerList::new(&[3, 0, 5]);
    let mut rows = [Line::new(other, 99); 2];
    let mut trace = Trace::new(&mut rows);
    assert_eq!(rt; ask(&mut host, &mut trace, call), Some(3));
    assert_eq!(rt; ask(&mut host, &mut trace, other), Some(0));
    assert_eq!(rt; ask(&mut host, &mut trace, call), None);
    assert_eq!(rt; host.count(), 2);
    let lines = trace.items();
    assert_eq!(rt; lines.len(), 2);
    assert!(rt; lines[0].tells(call) && lines[1].tells(other));
    Ok(())
}

const TEXT: [u8; 82] =
    *b"base-files 12.4 3 2 13~rc1 8\nbase-files 12.4 2 3 null 0\nbase-files 12.4 3 4 - 127\n";

// The three lines of TEXT, of 29, 27 and 26 bytes.
fn three() -> Option<[Line; 3]> {
    let calls = sample_calls()?;
    Some([
        Line::new(calls.upgrade, 8),
        Line::new(calls.configure, 0),
        Line::new(calls.remove, 127),
    ])
}

#[test]
fn lines_in_an_exact_buffer(rt: HostRuntime) -> Result<(), Fail> {
    let lines = three().ok_or("no call")?;
    let mut out = [0u8; 82];
    assert_eq!(rt; write_trace(&lines, &mut out)?, 82);
    assert!(rt; out == TEXT);
    Ok(())
}

#[test]
fn lines_in_a_short_buffer(rt: HostRuntime) -> Result<(), Fail> {
    let lines = three().ok_or("no call")?;
    let mut out = [0u8; 81];
    let Err(refusal) = write_trace(&lines, &mut out) else {
        return Err(Fail::new("81 bytes are enough"));
    };
    assert!(rt; is_refused(refusal, 9, 56, 3));
    assert!(rt; out[0..56] == TEXT[0..56]);
    let Err(refusal) = write_trace(&lines, &mut []) else {
        return Err(Fail::new("no bytes are enough"));
    };
    assert!(rt; is_refused(refusal, 9, 0, 3));
    Ok(())
}

#[test]
fn a_line_that_no_call_left(rt: HostRuntime) -> Result<(), Fail> {
    let mut lines = three().ok_or("no call")?;
    lines[1].name = ShortText { bytes: [b'A'; 16] };
    let mut out = [0u8; 29];
    let Err(refusal) = write_trace(&lines, &mut out) else {
        return Err(Fail::new("a name in capitals is written"));
    };
    assert!(rt; is_refused(refusal, 7, 29, 3));
    Ok(())
}
