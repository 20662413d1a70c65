//! Conditions as deep as they may be, and deeper, and very long ones.

use crate::fault_cases::{ALL, is_told};
use cond_text::TextFault;
use gx_base::NoMemory;
use std::alloc::Global;
use std::test::Fail;

/// A set table with one row, whose text repeats a part.
fn row_of_parts(
    alloc: Global,
    head: &str,
    part: &str,
    count: u32,
    tail: &str,
) -> Result<Vec<u8>, NoMemory> {
    let mut text = Vec::new(alloc);
    text.extend_from_slice(b"type set\nadd remove : true\n")?;
    text.extend_from_slice(head.as_bytes())?;
    for _ in 0..count {
        text.extend_from_slice(part.as_bytes())?;
    }
    text.extend_from_slice(tail.as_bytes())?;
    Ok(text)
}

const DEEP: Option<TextFault> = Some(TextFault::TooDeep { line: 3 });

const WRONG: Option<TextFault> = Some(TextFault::Syntax { line: 3 });

const UNNAMED: Option<TextFault> = Some(TextFault::UnknownName { line: 3 });

const AGAIN: Option<TextFault> = Some(TextFault::Twice { line: 3 });

const NO_METHOD: Option<TextFault> = Some(TextFault::UnknownMethod { line: 3 });

/// What stands in front of a part, the part, how often it stands, what follows, and what is told.
const REPEATED: [(&str, &str, u32, &str, Option<TextFault>); 30] = [
    // trees of 64 and of 65
    ("add add : ", "not ", 63, "true", None),
    ("add add : ", "not ", 64, "true", DEEP),
    ("add add : ", "not ", 64, "x = 1", UNNAMED),
    ("add add : ", "not ", 64, "true)", WRONG),
    ("add add : ", "not ", 64, "", WRONG),
    ("add read : ", "not ", 64, "true", NO_METHOD),
    ("add remove : ", "not ", 64, "true", AGAIN),
    ("add add : true", " or true", 63, "", None),
    ("add add : true", " or true", 64, "", DEEP),
    ("add add : true", " and a1 = a2", 63, "\n", None),
    ("add add : true", " and a1 = a2", 64, "\nx", DEEP),
    ("add add : true", " or (true", 63, "", WRONG),
    ("add add : true", " or true and true", 62, "", None),
    ("add add : true", " or true and true", 62, " and true", None),
    ("add add : true", " or true and true", 63, "", DEEP),
    ("add add : ", "not ", 100_000, "true", DEEP),
    // 64 and 65 parentheses
    ("add add : ", "(", 64, "true", WRONG),
    ("add add : ", "(", 65, "true", DEEP),
    ("add add : ", "(", 65, "", DEEP),
    ("add add : ", "(", 65, "x ) ! : or", DEEP),
    ("add add : ", "( (true) or ", 64, "(", DEEP),
    ("add add : ", "( (true) or ", 63, "true", WRONG),
    ("add add : true true ", "(", 65, "", WRONG),
    ("add add : x = 1 or ", "(", 65, "", UNNAMED),
    ("add read : x = 1 or ", "(", 65, "", NO_METHOD),
    ("add remove : ", "(", 65, "", AGAIN),
    ("add add : ", "(", 64, "beyond(arg1", DEEP),
    ("add add : ", "(", 63, "beyond(arg1, arg2, rep1) = 1", WRONG),
    ("add add : ", "not(", 65, "", DEEP),
    ("( add add : ", "(", 65, "", WRONG),
];

#[test]
fn depth_is_bounded(rt: HostRuntime) -> Result<(), Fail> {
    let alloc = rt.alloc();
    for (head, part, count, tail, told) in REPEATED {
        let text = row_of_parts(alloc, head, part, count, tail)?;
        assert!(rt;
            is_told(alloc, &text, &ALL, told),
            "{head}{part}{count}{tail}"
        );
    }
    Ok(())
}

/// A set table with one row, in so many parentheses.
fn in_parentheses(alloc: Global, count: u32) -> Result<Vec<u8>, NoMemory> {
    let mut text = Vec::new(alloc);
    text.extend_from_slice(b"type set\nadd add : ")?;
    for _ in 0..count {
        text.extend_from_slice(b"(")?;
    }
    text.extend_from_slice(b"beyond(arg1, arg2, rep1) = 1")?;
    for _ in 0..count {
        text.extend_from_slice(b")")?;
    }
    text.extend_from_slice(b" or (true)")?;
    Ok(text)
}

#[test]
fn parentheses_are_bounded_and_close(rt: HostRuntime) -> Result<(), Fail> {
    let alloc = rt.alloc();
    let deep = Some(TextFault::TooDeep { line: 2 });
    for (count, told) in [(0, None), (1, None), (63, None), (64, deep), (65, deep)] {
        let text = in_parentheses(alloc, count)?;
        assert!(rt; is_told(alloc, &text, &ALL, told));
    }
    Ok(())
}

/// Puts a part 2 to the 15th times.
fn put_long(text: &mut Vec<u8>, part: &str) -> Result<(), NoMemory> {
    for _ in 0..1u32 << 15 {
        text.extend_from_slice(part.as_bytes())?;
    }
    Ok(())
}

/// Whether a set table with one row, whose condition is very long, is refused with this fault.
fn is_told_of_long(alloc: Global, part: &str, told: TextFault) -> Result<bool, NoMemory> {
    let mut text = Vec::new(alloc);
    text.extend_from_slice(b"type set\nadd add : ")?;
    put_long(&mut text, part)?;
    Ok(is_told(alloc, &text, &ALL, Some(told)))
}

#[test]
fn very_long_lines_are_read(rt: HostRuntime) -> Result<(), Fail> {
    let alloc = rt.alloc();
    let malformed = TextFault::Syntax { line: 2 };
    assert!(rt; is_told_of_long(alloc, "((((((((", TextFault::TooDeep { line: 2 })?);
    assert!(rt; is_told_of_long(alloc, "not not ", malformed)?);
    assert!(rt; is_told_of_long(alloc, "(1=1)and", malformed)?);
    Ok(())
}
