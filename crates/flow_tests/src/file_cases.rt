//! Small files, with the line of the first fault worked out by hand.

use gx_base::InputFault;
use preflow_push::read_max;
use std::alloc::Global;

const FILES: [(&str, u64); 4] = [
    ("p max 2 1\nn 1 s\nn 2 t\na 0 2 5\n", 4),
    ("p max 2 2\nn 1 s\nn 2 t\na 1 2 5\n", 5),
    ("p max 2 0\nn 1 s\nn 2 t\n", 0),
    ("p max 100001 0\nn 1 s\nn 2 t\n", 999),
];

/// The line of the first fault, 0 for a file that is read, and 999 for one that is refused otherwise.
fn line_of(alloc: Global, file: &[u8]) -> u64 {
    match read_max(alloc, file) {
        Ok(_) => 0,
        Err(InputFault::Line(line)) => line,
        Err(_) => 999,
    }
}

#[test]
fn faults_have_their_lines(rt: HostRuntime) {
    for (file, line) in FILES {
        assert_eq!(rt; line_of(rt.alloc(), file.as_bytes()), line);
    }
}
