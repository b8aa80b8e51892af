//! Workloads and their canonical spellings. Each was written by hand: the lines before the rows of the first table, and
//! those from the last row of the last table on.
use crate::judging::is_so;
use sd_canonical::write_work;
use sd_types::Work;
use sd_workload::read_work;
use std::alloc::{AllocError, Global};

const SMALLEST: &[u8] = b"limit 1";

const SMALLEST_HEAD: &[u8] = b"cpus 1\nhz 100\nlimit 1\ntable ts\nRES=1000\n200 0 50 0 50 # 0\n";

const SMALLEST_TAIL: &[u8] = b"100 # 59\nend\n";

// All forms of lines, in another order and with other blanks, and what may be left out left out.
const WHOLE: &[u8] =
    b"hz 1000 # ticks\n\tcpus 6\nlimit 0020\nset late 4 2\nset b 5\nrwlock r\nmutex m\nchan k\nsema s 65535\nthread a ts 59 -5 60 priv in late\nthread b fx 60 30 inf\nthread c sys 99 uid 7\nthread d rt 0 250 in b\nthread e fx 10 50 def\nscript c\nyield\nend\nscript b\nend\nscript a\nrun 1\n  nap 100000\nenter m\ncvwait k  m\nexit m\nread r\nexit r\nwrite r\nexit r\nsleep k\nwake k\nwakeall k\nsemap s\nsemav s\npriocntl b ts -32768 7\npriocntl b fx 1 -2 inf\npriocntl c sys 3\npriocntl d rt 4 9\nassign 0 b\nassign 1 -\npbind e 3\npbind e -\nend\n";

const WHOLE_HEAD: &[u8] =
    b"cpus 6\nhz 1000\nlimit 20\nset late 4 2\nset b 5\ntable ts\nRES=1000\n200 0 50 0 50 # 0\n";

const WHOLE_TAIL: &[u8] =
    b"100 # 59\nend\nrwlock r\nmutex m\nchan k\nsema s 65535\nthread a ts 59 -5 -5 uid 0 priv in late\nthread b fx 60 30 inf uid 0\nthread c sys 99 uid 7\nthread d rt 0 250 uid 0 in b\nthread e fx 10 10 def uid 0\nscript a\nrun 1\nnap 100000\nenter m\ncvwait k m\nexit m\nread r\nexit r\nwrite r\nexit r\nsleep k\nwake k\nwakeall k\nsemap s\nsemav s\npriocntl b ts -32768 7\npriocntl b fx 1 -2 inf\npriocntl c sys 3\npriocntl d rt 4 9\nassign 0 b\nassign 1 -\npbind e 3\npbind e -\nend\nscript c\nyield\nend\n";

fn has_spelling(alloc: Global, work: &Work, head: &[u8], tail: &[u8]) -> Result<bool, AllocError> {
    let mut text = Vec::new(alloc);
    write_work(alloc, work, &mut text)?;
    Ok(text.starts_with(head) && text.ends_with(tail))
}

// Whether the workload that this text spells is written with these lines first and last.
fn is_spelled(alloc: Global, input: &[u8], head: &[u8], tail: &[u8]) -> Result<bool, AllocError> {
    if 1000 <= input.len() {
        return Ok(false);
    }
    match read_work(alloc, input) {
        Ok(work) => has_spelling(alloc, &work, head, tail),
        Err(_) => Ok(false),
    }
}

#[test]
fn spellings(rt: HostRuntime) {
    is_so(
        &rt,
        is_spelled(rt.alloc(), SMALLEST, SMALLEST_HEAD, SMALLEST_TAIL),
    );
    is_so(&rt, is_spelled(rt.alloc(), WHOLE, WHOLE_HEAD, WHOLE_TAIL));
}
