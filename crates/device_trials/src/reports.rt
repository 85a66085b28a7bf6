//! Replies and a refusal that no run of the program gives at will.

use report_text::{Answer, Refusal, ReplyLine, ReplyLines, refusal_line, write_replies};
use std::alloc::Global;
use std::test::Fail;

/// An answer, and how it is printed.
fn printed(case: usize) -> (Answer, &'static [u8]) {
    match case {
        0 => (Answer::PutMemory, b"reply 2 3 put memory\nend 1\n"),
        1 => (
            Answer::PutMemoryAt { number: 8 },
            b"reply 2 3 put memory 8\nend 1\n",
        ),
        2 => (Answer::ScanMemory, b"reply 2 3 scan memory\nend 1\n"),
        3 => (
            Answer::FlushBusy {
                handler: 16,
                call: 12,
            },
            b"reply 2 3 flush busy 16 12\nend 1\n",
        ),
        4 => (Answer::FlushMemory, b"reply 2 3 flush memory\nend 1\n"),
        5 => (Answer::RollMemory, b"reply 2 3 roll memory\nend 1\n"),
        _ => (Answer::GetMemory, b"reply 2 3 get memory\nend 1\n"),
    }
}

/// Whether the answer to the third call of handler 2 is printed so.
fn is_printed(alloc: Global, answer: Answer, text: &[u8]) -> Result<bool, Fail> {
    let line = ReplyLine {
        handler: 2,
        call: 3,
        answer,
    };
    let replies = ReplyLines::of(vec![in alloc; line]?);
    Ok(write_replies(alloc, &replies, 1)?.as_slice() == text)
}

#[test]
fn answers_and_a_refusal(rt: HostRuntime) -> Result<(), Fail> {
    for case in 0..7 {
        let (answer, text) = printed(case);
        assert!(rt; is_printed(rt.alloc(), answer, text)?, "{case}");
    }
    assert!(rt; refusal_line(&Refusal::Memory).as_slice() == b"refused memory\n".as_slice());
    Ok(())
}
