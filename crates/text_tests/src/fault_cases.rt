//! Texts that are refused, by hand, with the line of the first fault.

use cond_text::{TextFault, read_table};
use gx_base::Kind;
use std::alloc::Global;

pub const ALL: [Kind; 5] = [
    Kind::Set,
    Kind::Cells,
    Kind::Flow,
    Kind::Points,
    Kind::Domains,
];

/// Whether a text is refused with this fault, or read where there is none.
pub fn is_told(alloc: Global, text: &[u8], wanted: &[Kind], told: Option<TextFault>) -> bool {
    match read_table(alloc, text, wanted) {
        Ok(_) => told.is_none(),
        Err(fault) => told == Some(fault),
    }
}

/// Texts that are refused as Syntax, with the line.
const SYNTAX: [(&str, u64); 69] = [
    // no `type` line
    ("", 1),
    ("\n", 2),
    ("\r\n", 2),
    ("# type set", 2),
    (" \t\r\n#\n", 3),
    ("\n\n\n  ", 5),
    // something else where it is to stand
    ("\r", 1),
    ("nonsense", 1),
    ("set", 1),
    ("add add : true\ntype set", 1),
    ("\n# c\nadd add : true true", 3),
    ("\nadd add : x = 1\n", 2),
    ("add add\n", 1),
    ("1", 1),
    ("type", 1),
    ("type #", 1),
    ("type set set", 1),
    ("type set :", 1),
    ("type 1", 1),
    ("type or", 1),
    ("type type", 1),
    ("type beyond", 1),
    ("Type set", 1),
    ("type=set", 1),
    // after it
    ("type set\n\r", 2),
    ("type set\ntype", 2),
    ("type set\n\ntype set set\n", 3),
    ("type set\nadd : true", 2),
    ("type set\nadd add true", 2),
    ("type set\nadd add :", 2),
    ("type set\nadd add add : true", 2),
    ("type set\nadd add : : true", 2),
    ("type set\nadd\radd : true", 2),
    ("type set\nadd not : true", 2),
    ("type set\ntrue add : true", 2),
    ("type set\nadd 1 : true", 2),
    ("type set\nadd add : true true", 2),
    ("type set\nadd add : true # c", 2),
    ("type set\nadd add : true\r\r\n", 2),
    ("type set\nadd add : a1", 2),
    ("type set\nadd add : a1 =", 2),
    ("type set\nadd add : = a1", 2),
    ("type set\nadd add : a1 = a2 = a1", 2),
    ("type set\nadd add : a1 == a2", 2),
    ("type set\nadd add : a1 ! = a2", 2),
    ("type set\nadd add : a1 < = a2", 2),
    ("type set\nadd add : a1 > a2", 2),
    ("type set\nadd add : a1 = - 1", 2),
    ("type set\nadd add : a1 = --1", 2),
    ("type set\nadd add : a1 = 1000000000000000000", 2),
    ("type set\nadd add : a1 = -0000000000000000001", 2),
    ("type set\nadd add : (true", 2),
    ("type set\nadd add : true)", 2),
    ("type set\nadd add : ()", 2),
    ("type set\nadd add : (a1) = a2", 2),
    ("type set\nadd add : true or", 2),
    ("type set\nadd add : or true", 2),
    ("type set\nadd add : true and or true", 2),
    ("type set\nadd add : not", 2),
    ("type set\nadd add : true not true", 2),
    ("type set\nadd add : 2 = 2 or1 = 1", 2),
    ("type set\nadd add : type = 1", 2),
    ("type set\nadd add : beyond = 1", 2),
    ("type set\nadd add : beyond(arg1, arg2, rep1)", 2),
    ("type set\nadd add : beyond(arg1, arg2) = 1", 2),
    ("type set\nadd add : beyond(arg1, arg2, 1) = 1", 2),
    ("type set\nadd add : beyond(arg1, arg2, rep1, rep2) = 1", 2),
    // before the other faults of a line
    ("type set\nadd read : x = 1 or", 2),
    ("type set\nadd add : true\n\nadd add : x = 1 or", 4),
];

/// Texts that are refused for a method, with the line.
const UNKNOWN_METHODS: [(&str, u64); 10] = [
    ("type set\nadd read : true", 2),
    ("type set\nread add : true", 2),
    ("type set\n\n#\nadd sum : true\nadd : true", 4),
    ("type set\nAdd add : true", 2),
    ("type set\na1 a2 : true", 2),
    ("type set\nadd adds : true", 2),
    ("type cells\nadd add : true\nadd contains : true", 3),
    ("type domains\nweigh set : true", 2),
    // before the later faults of a line
    ("type set\nadd read : x = 1", 2),
    ("type set\nadd add : true\nadd at : dom1 = 1", 3),
];

/// Texts that are refused for a name or a word of a condition, with the line.
const UNKNOWN_NAMES: [(&str, u64); 28] = [
    ("type sets", 1),
    ("type Set", 1),
    ("type add", 1),
    ("# c\n\ntype a1\nadd", 3),
    ("type set\ntype sets", 2),
    ("type set\nadd add : x = 1", 2),
    ("type set\nadd add : 1 = a", 2),
    ("type set\nadd add : 1 = a3", 2),
    ("type set\nadd add : 1 = e1", 2),
    ("type set\nadd add : 1 = a12", 2),
    ("type set\nadd add : 1 = A1", 2),
    ("type set\nadd add : 1 = a0", 2),
    ("type set\nadd add : Or = 1", 2),
    ("type set\nadd add : True = 1", 2),
    ("type set\nadd add : true or not (b1 = zero)", 2),
    ("type set\nadd add : arg1 = 1", 2),
    ("type set\nadd add : 1 < rep2", 2),
    ("type set\nadd add : beyond(a1, arg2, rep1) = 1", 2),
    ("type set\nadd add : beyond(arg1, b2, rep1) = 1", 2),
    ("type set\nadd add : beyond(arg1, arg2, p1) = 1", 2),
    ("type set\nadd add : beyond(arg1, arg2, rep3) = 1", 2),
    ("type set\nadd add : beyond(arg1, arg2, rep1) = arg1", 2),
    ("type set\nadd add : dom1 = 1", 2),
    ("type points\nadd add : dom2 = 1", 2),
    ("type domains\nsum sum : dom3 = 1", 2),
    ("type domains\nsum sum : beyond(dom1, arg1, arg1) = 1", 2),
    // before the later faults of a line, and before those of later lines
    ("type set\nadd add : true\nadd add : x = 1", 3),
    ("type set\nadd add : x = 1\nadd add : true true\n", 2),
];

/// Texts that are refused as Twice, with the line.
const TWICE: [(&str, u64); 8] = [
    ("type set\ntype set", 2),
    ("type set\n\ntype cells\n", 3),
    ("type set\nadd add : true\n# c\ntype domains", 4),
    ("type set\nadd add : true\nadd add : true", 3),
    ("type set\nadd add : false\nadd add : false", 3),
    ("type set\nadd add : false\nadd add : a1 != a2\nx", 3),
    (
        "type set\nadd remove : true\nremove add : true\nadd remove : true",
        4,
    ),
    (
        "type flow\nflow flow : false\nheight send : false\nsend height : false\nheight send : true",
        5,
    ),
];

#[test]
fn lines_of_another_form_are_told(rt: HostRuntime) {
    for (text, line) in SYNTAX {
        let told = Some(TextFault::Syntax { line });
        assert!(rt; is_told(rt.alloc(), text.as_bytes(), &ALL, told), "{text}");
    }
}

#[test]
fn unknown_methods_are_told(rt: HostRuntime) {
    for (text, line) in UNKNOWN_METHODS {
        let told = Some(TextFault::UnknownMethod { line });
        assert!(rt; is_told(rt.alloc(), text.as_bytes(), &ALL, told), "{text}");
    }
}

#[test]
fn unknown_names_are_told(rt: HostRuntime) {
    for (text, line) in UNKNOWN_NAMES {
        let told = Some(TextFault::UnknownName { line });
        assert!(rt; is_told(rt.alloc(), text.as_bytes(), &ALL, told), "{text}");
    }
}

#[test]
fn what_stands_twice_is_told(rt: HostRuntime) {
    for (text, line) in TWICE {
        let told = Some(TextFault::Twice { line });
        assert!(rt; is_told(rt.alloc(), text.as_bytes(), &ALL, told), "{text}");
    }
}

#[test]
fn other_kinds_than_the_wanted_are_refused(rt: HostRuntime) {
    let alloc = rt.alloc();
    let unknown = Some(TextFault::UnknownName { line: 1 });
    assert!(rt; is_told(alloc, b"type set", &[], unknown));
    assert!(rt; is_told(alloc, b"type set", &[Kind::Cells], unknown));
    assert!(rt; is_told(alloc, b"type cells", &[Kind::Flow, Kind::Cells], None));
    let later = Some(TextFault::UnknownName { line: 3 });
    assert!(rt; is_told(alloc, b"\ntype set\ntype cells", &[Kind::Set], later));
}
