use crate::{ShowEnd, law_recordings, show};
use std::alloc::{AllocError, Global};
use std::process::Abort;
use vs_base::Text;
use vs_frame::{FrameWhy, put_frame};
use vs_outside::{MemSink, MemSource, SinkAnswer};

/// The frames of `drop table t` and `drop table s`, as the stream has them.
const FRAMES: &[u8] =
    b"\x00\x00\x00\x64\x0a\x46\x08\x0f\x10\x64\x3a\x38\x0a\x36\x0a\x01\x63\x12\x01\x30\
    \x1a\x2e\x4d\x79\x53\x51\x4c\x35\x36\x2f\x30\x30\x30\x30\x30\x30\x30\x30\x2d\x30\
    \x30\x30\x30\x2d\x30\x30\x30\x30\x2d\x30\x30\x30\x30\x2d\x30\x30\x30\x30\x30\x30\
    \x30\x30\x30\x30\x30\x31\x3a\x31\xb2\x01\x01\x63\xba\x01\x01\x30\x0a\x1a\x08\x05\
    \x10\x64\x22\x0c\x64\x72\x6f\x70\x20\x74\x61\x62\x6c\x65\x20\x74\xb2\x01\x01\x63\
    \xba\x01\x01\x30\x00\x00\x00\x66\x0a\x48\x08\x0f\x10\x65\x3a\x3a\x0a\x38\x0a\x01\
    \x63\x12\x01\x30\x1a\x30\x4d\x79\x53\x51\x4c\x35\x36\x2f\x30\x30\x30\x30\x30\x30\
    \x30\x30\x2d\x30\x30\x30\x30\x2d\x30\x30\x30\x30\x2d\x30\x30\x30\x30\x2d\x30\x30\
    \x30\x30\x30\x30\x30\x30\x30\x30\x30\x31\x3a\x31\x2d\x32\xb2\x01\x01\x63\xba\x01\
    \x01\x30\x0a\x1a\x08\x05\x10\x65\x22\x0c\x64\x72\x6f\x70\x20\x74\x61\x62\x6c\x65\
    \x20\x73\xb2\x01\x01\x63\xba\x01\x01\x30";

const LINES: &[u8] =
    b"#1\nVGTID c/0@MySQL56/00000000-0000-0000-0000-000000000001:1\nDDL c/0 'drop table t'\n\
    #2\nVGTID c/0@MySQL56/00000000-0000-0000-0000-000000000001:1-2\nDDL c/0 'drop table s'\n";

const FIRST: &[u8] =
    b"#1\nVGTID c/0@MySQL56/00000000-0000-0000-0000-000000000001:1\nDDL c/0 'drop table t'\n";

/// What is printed of an input, and how it ends.
fn shown(
    alloc: Global,
    bytes: &[u8],
    fails: &[bool],
    script: &[SinkAnswer],
) -> Result<(Text, ShowEnd), AllocError> {
    let mut input = MemSource::new(alloc, bytes, fails)?;
    let mut output = MemSink::new(alloc, script)?;
    let end = show(alloc, &mut input, &mut output);
    Ok((Text::from_bytes(alloc, output.sent())?, end))
}

fn cut(number: u64) -> ShowEnd {
    ShowEnd::BadFrame {
        number,
        why: FrameWhy::Cut,
    }
}

/// The bytes of a recording, the lines that are printed of them, and how it ends.
struct Recording {
    bytes: &'static [u8],
    lines: &'static [u8],
    end: ShowEnd,
}

static RECORDINGS: [Recording; 5] = [
    Recording {
        bytes: FRAMES,
        lines: LINES,
        end: ShowEnd::Whole,
    },
    Recording {
        bytes: b"",
        lines: b"",
        end: ShowEnd::Whole,
    },
    Recording {
        bytes: b"\x00\x00\x00\x00",
        lines: b"#1\n",
        end: ShowEnd::Whole,
    },
    Recording {
        bytes: b"\x01\x00\x00\x01",
        lines: b"",
        end: ShowEnd::BadFrame {
            number: 1,
            why: FrameWhy::TooLong,
        },
    },
    Recording {
        bytes: b"\x00\x00\x00\x00\x00\x00\x00\x02\x0a\x01\x00\x00",
        lines: b"#1\n",
        end: ShowEnd::BadFrame {
            number: 2,
            why: FrameWhy::Message,
        },
    },
];

fn check(
    rt: &impl Abort,
    alloc: Global,
    bytes: &[u8],
    lines: &[u8],
    end: ShowEnd,
) -> Result<(), AllocError> {
    let (text, answer) = shown(alloc, bytes, &[], &[])?;
    assert_eq!(rt; text.as_bytes(), lines);
    assert_eq!(rt; answer, end);
    Ok(())
}

#[test]
fn a_recording_is_shown_up_to_its_first_bad_frame(rt: HostRuntime) -> Result<(), AllocError> {
    for case in &RECORDINGS {
        check(&rt, rt.alloc(), case.bytes, case.lines, case.end)?;
    }
    Ok(())
}

/// Checks the first so many bytes of the two frames.
fn check_front(
    rt: &impl Abort,
    alloc: Global,
    length: usize,
    lines: &[u8],
    end: ShowEnd,
) -> Result<(), AllocError> {
    let length = length.min(FRAMES.len());
    check(rt, alloc, &FRAMES[..length], lines, end)
}

#[test]
fn frames_are_cut(rt: HostRuntime) -> Result<(), AllocError> {
    let alloc = rt.alloc();
    check_front(&rt, alloc, 104, FIRST, ShowEnd::Whole)?;
    check_front(&rt, alloc, 50, b"", cut(1))?;
    check_front(&rt, alloc, 107, FIRST, cut(2))?;
    check_front(&rt, alloc, 209, FIRST, cut(2))?;
    Ok(())
}

/// An event's bytes, and the lines that are printed of it behind its frame's number.
struct Printed {
    event: &'static [u8],
    lines: &'static [u8],
}

static EVENTS: [Printed; 21] = [
    Printed {
        event: b"\x08\x02\x10d\xb2\x01\x01c\xba\x01\x010",
        lines: b"BEGIN c/0\n",
    },
    Printed {
        event: b"\x08\x03\xb2\x01\x01c\xba\x01\x010",
        lines: b"COMMIT c/0\n",
    },
    Printed {
        event: b"\x08\x0b\xb2\x01\x01c\xba\x01\x010",
        lines: b"OTHER c/0\n",
    },
    Printed {
        event: b"\x08\x05\x22\x09a'\x5c ~\x7f\x0a\xc3\xbf\xb2\x01\x01c\xba\x01\x010",
        lines: b"DDL c/0 'a\\x27\\x5c ~\\x7f\\x0a\\xc3\\xbf'\n",
    },
    Printed {
        event: b"\x08\x0d2\x16\x0a\x03c.t\x12\x07\x0a\x02id\x10\x87\x02\x12\x06\x0a\x01v\x10\x950\xb2\x01\x01c\xba\x01\x010",
        lines: b"FIELD c/0 c.t id:263,v:6165\n",
    },
    Printed {
        event: b"\x08\x0c*.\x0a\x03c.t\x12\x0a\x0a\x08\x0a\x02\x02\x02\x12\x025a\x12\x0a\x12\x08\x0a\x02\x02\x02\x12\x025a\x12\x0f\x0a\x08\x0a\x02\x04\x01\x12\x0250\x12\x03\x0a\x01\x00\xb2\x01\x01c\xba\x01\x010",
        lines: b"ROW c/0 c.t ['5','a'] -> -\nROW c/0 c.t - -> ['5','a']\nROW c/0 c.t ['50',NULL] -> ['']\n",
    },
    Printed {
        event: b"\x08\x0f:<\x0a\x1c\x0a\x01c\x12\x010\x1a\x05u:1-2\x22\x0d\x0a\x01t\x12\x08\x0a\x01\x06\x12\x03100\x0a\x1c\x0a\x01d\x12\x03-80\x22\x0d\x0a\x01t\x12\x08\x0a\x02\x02\x02\x12\x0212\x22\x03\x0a\x01s\xb2\x01\x01c\xba\x01\x010",
        lines: b"VGTID c/0@u:1-2+t['100'];d/-80@+t['1','2']+s-\n",
    },
    Printed {
        event: b"\x08\x10B\x02\x08\x07",
        lines: b"JOURNAL 7\n",
    },
    Printed {
        event: b"\x08\x10B\x0b\x08\xf9\xff\xff\xff\xff\xff\xff\xff\xff\x01",
        lines: b"JOURNAL -7\n",
    },
    Printed {
        event: b"\x08\x14\xb2\x01\x01c\xba\x01\x010",
        lines: b"COPY_COMPLETED c/0\n",
    },
    Printed {
        event: b"\x08\x14",
        lines: b"COPY_COMPLETED\n",
    },
    Printed {
        event: b"\x08\x14\xba\x01\x010",
        lines: b"COPY_COMPLETED /0\n",
    },
    Printed {
        event: b"\x08\x0e\xa0\x01*",
        lines: b"HEARTBEAT 42\n",
    },
    Printed {
        event: b"\x08\x0e\xa0\x01\xff\xff\xff\xff\xff\xff\xff\xff\xff\x01",
        lines: b"HEARTBEAT -1\n",
    },
    Printed {
        event: b"\x08\x12\xb2\x01\x01c\xba\x01\x010",
        lines: b"EVENT 18\n",
    },
    Printed {
        event: b"\x08\xff\xff\xff\xff\xff\xff\xff\xff\xff\x01",
        lines: b"EVENT -1\n",
    },
    Printed {
        event: b"",
        lines: b"EVENT 0\n",
    },
    Printed {
        event: b"\x08\x0d\xb2\x01\x01c\xba\x01\x010",
        lines: b"FIELD c/0  \n",
    },
    Printed {
        event: b"\x08\x0c\xb2\x01\x01c\xba\x01\x010",
        lines: b"",
    },
    Printed {
        event: b"\x08\x0f",
        lines: b"VGTID \n",
    },
    Printed {
        event: b"\x08\x10",
        lines: b"JOURNAL 0\n",
    },
];

/// A frame of this one event, which has fewer than 128 bytes.
fn put_event(alloc: Global, frames: &mut Vec<u8>, event: &[u8]) -> Result<(), AllocError> {
    let mut message = Vec::new(alloc);
    message.push(b'\n')?;
    message.push((event.len() % 128) as u8)?;
    message.extend_from_slice(event)?;
    if message.len() < 256 {
        put_frame(alloc, frames, &message)?;
    }
    Ok(())
}

/// A frame for each event.
fn frames_of(alloc: Global, events: &[Printed]) -> Result<Vec<u8>, AllocError> {
    let mut frames = Vec::new(alloc);
    for event in events {
        put_event(alloc, &mut frames, event.event)?;
    }
    Ok(frames)
}

fn lines_of(alloc: Global, events: &[Printed]) -> Result<Vec<u8>, AllocError> {
    let mut lines = Vec::new(alloc);
    let mut number = 0u64;
    for event in events {
        number = number.wrapping_add(1);
        lines.extend_from_slice(format!(in alloc; "#{number}\n")?.as_bytes())?;
        lines.extend_from_slice(event.lines)?;
    }
    Ok(lines)
}

#[test]
fn each_kind_of_event_has_its_line(rt: HostRuntime) -> Result<(), AllocError> {
    let alloc = rt.alloc();
    let frames = frames_of(alloc, &EVENTS)?;
    let lines = lines_of(alloc, &EVENTS)?;
    check(&rt, alloc, &frames, &lines, ShowEnd::Whole)
}

/// These bytes, 131,072 times the letter a, and these.
fn letters_between(alloc: Global, front: &[u8], back: &[u8]) -> Result<Vec<u8>, AllocError> {
    let mut bytes = Vec::from_slice(alloc, front)?;
    for _ in 0..131_072 {
        bytes.push(b'a')?;
    }
    bytes.extend_from_slice(back)?;
    Ok(bytes)
}

#[test]
fn a_frame_may_be_longer_than_a_read(rt: HostRuntime) -> Result<(), AllocError> {
    let alloc = rt.alloc();
    let head = b"\x00\x02\x00\x0c\x0a\x88\x80\x08\x08\x05\x22\x82\x80\x08''";
    let frames = letters_between(alloc, head, b"")?;
    let lines = letters_between(alloc, b"#1\nDDL / '\\x27\\x27", b"'\n")?;
    check(&rt, alloc, &frames, &lines, ShowEnd::Whole)
}

#[test]
fn faults_of_the_input_are_told(rt: HostRuntime) -> Result<(), AllocError> {
    let (text, end) = shown(rt.alloc(), FRAMES, &[true], &[])?;
    assert_eq!(rt; (text.as_bytes().len(), end), (0, ShowEnd::InputFault));
    let (text, end) = shown(rt.alloc(), FRAMES, &[false, true], &[])?;
    assert_eq!(rt; text.as_bytes(), LINES);
    assert_eq!(rt; end, ShowEnd::InputFault);
    Ok(())
}

#[test]
fn a_fault_of_the_output_is_told(rt: HostRuntime) -> Result<(), AllocError> {
    let script = [SinkAnswer::Take(2), SinkAnswer::Fail];
    let (text, end) = shown(rt.alloc(), FRAMES, &[], &script)?;
    assert_eq!(rt; text.as_bytes(), b"#1".as_slice());
    assert_eq!(rt; end, ShowEnd::LinkFault);
    Ok(())
}

#[test]
fn laws_are_called() {
    law_recordings();
}
