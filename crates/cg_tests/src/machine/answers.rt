//! The lines of copies of answers.
use cg_command::BoxedText;
use cg_desk::Answer;
use cg_script::write_answer;
use std::alloc::{AllocError, Global};

// Appends the line of an answer's copy.
fn write_copy(alloc: Global, answer: &Answer, out: &mut Vec<u8>) -> Result<(), AllocError> {
    write_answer(&answer.copy(alloc)?, out)
}

#[test]
fn answers_have_lines(rt: HostRuntime) {
    let shown = Answer::Text(BoxedText::new(rt.alloc(), b"10\n").expect(&rt, "memory"));
    let mut out = Vec::new(rt.alloc());
    assert!(rt; write_copy(rt.alloc(), &shown, &mut out).is_ok());
    assert!(rt; write_copy(rt.alloc(), &Answer::Saved, &mut out).is_ok());
    assert!(rt; write_copy(rt.alloc(), &Answer::Back(2), &mut out).is_ok());
    assert!(rt; out.as_slice() == "text \"10\\n\"savedback 2".as_bytes());
}
