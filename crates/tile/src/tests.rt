// Examples on values.
use crate::cover::{Coverage, CoverageRecord};
use crate::fault::{Fault, Ground};
use crate::kind::Pixel;
use crate::near::{Nearest, NearestRecord};
use crate::rows::{join_words, write_row};
use std::test::Fail;

#[test]
fn rows_go_by_words(rt: HostRuntime) -> Result<(), Fail> {
    let back = [
        NearestRecord {
            nearness: 5,
            colour: 20,
        },
        NearestRecord {
            nearness: 0,
            colour: 7,
        },
    ];
    let mut front = [
        NearestRecord {
            nearness: 5,
            colour: 10,
        },
        NearestRecord {
            nearness: 3,
            colour: 4,
        },
    ];
    let mut words = [9; 5];
    write_row::<Nearest>(&back, &mut words)?;
    assert_eq!(rt; words, [5, 20, 0, 0, 9]);
    join_words::<Nearest>(&mut front, &words[0..4])?;
    assert_eq!(rt; front[0].colour, 10);
    assert_eq!(rt; front[1].colour, 4);
    Ok(())
}

#[test]
fn unlawful_words_are_refused(rt: HostRuntime) -> Result<(), Fail> {
    let mut front = [NearestRecord {
        nearness: 1,
        colour: 2,
    }];
    let Err(fault) = join_words::<Nearest>(&mut front, &[0, 7]) else {
        return Err(Fail::new("unlawful words were joined"));
    };
    assert_eq!(rt; fault.ground(), Ground::BadMessage);
    assert_eq!(rt; fault.number(), 20);
    assert_eq!(rt; front[0].nearness, 1);
    Ok(())
}

#[test]
fn samples_keep_their_front(rt: HostRuntime) {
    let front = CoverageRecord {
        mask: 0x0f,
        planes: [0xf5, 0, 0, 0],
    };
    let back = CoverageRecord {
        mask: 0xff,
        planes: [0xff, 0, 0, 0],
    };
    let joined = Coverage::from_record(front)
        .join(Coverage::from_record(back))
        .to_record();
    assert_eq!(rt; joined.mask, 0xff);
    assert_eq!(rt; joined.planes, [0xf5, 0, 0, 0]);
}

#[test]
fn a_fault_tells_itself(rt: HostRuntime) -> Result<(), Fail> {
    let fault = Fault::Link {
        ground: Ground::BoxTaken,
        rank: 3,
    };
    let line = format!(in rt.alloc(); "{fault}")?;
    assert_eq!(rt;
        line.as_str(),
        "refused 12: box not empty (part 4, rank 3, place 0)"
    );
    Ok(())
}
