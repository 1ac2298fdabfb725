// Whether a record may stand where it stands: each is taken apart, or answered with its ground.
ghost use Rattle.std.specs.Prelude.{◌≡◌, ◌≢◌, ◌+◌, ◌*◌, ◌<◌, [], length, MatchResult};
ghost use Rattle.tile.specs.declared.fault.Ground.TheVariants.{OutOfPlace};
ghost use Rattle.tile.specs.Named.{named_width};
ghost use Rattle.dump.specs.Records.{body_of, kind_of};
ghost use Rattle.dump.specs.Phases.{phase};
ghost use Rattle.dump.specs.Order.{Answers, end_ground, head_ground, next, onward, pixel_ground, place_ground, rank_ground, record_ground};

use crate::record::{Item, Record};
use crate::stage::{Head, Progress, Stage};
use crate::words::read_body;
use tile::cover::Coverage;
use tile::fault::Ground;
use tile::kind::Pixel;
use tile::named::PixelKind;
use tile::near::Nearest;

// A number of two bytes, high byte first.
fn half(high: u8, low: u8) -> u32
    ensures { result ≡ high * 256 + low }
{
    u32::from(u16::from_be_bytes([high, low]))
}

// A body of N bytes as an array.
fn sized<const N: usize>(body: &[u8]) -> [u8; N]
    requires { length body.now ≡ N }
    ensures { result ≡ body.now }
{
    <[u8; N]>::try_from(body).unwrap()
}

// How far the sections have been read; before HEAD and behind END no record of a section may stand.
fn within(stage: Stage) -> Result<Progress, Ground>
    ensures { MatchResult result (λ p. stage ≡ Stage.Within p) (λ g. (g ≡ OutOfPlace) × ((p : _) → stage ≢ Stage.Within p)) }
{
    match stage {
        Stage::Within(progress) => Ok(progress),
        Stage::Start | Stage::Ended(_) => Err(Ground::OutOfPlace),
    }
}

// HEAD: ranks, pixels and kind.
fn at_head(stage: Stage, body: [u8; 4]) -> Result<Stage, Ground>
    ensures { Answers (head_ground (phase stage) body) (next (phase stage) 1 body) result }
{
    let Stage::Start = stage else {
        return Err(Ground::OutOfPlace);
    };
    let [ranks, high, low, kind] = body;
    let ranks = u32::from(ranks);
    let pixels = half(high, low);
    let (1..=32, 1..=1024) = (ranks, pixels) else {
        return Err(Ground::OffLimits);
    };
    let head = Head {
        ranks,
        pixels,
        kind: PixelKind::try_from(kind)?,
    };
    Ok(Stage::Within(Progress {
        head,
        sections: 0,
        due: 0,
    }))
}

// RANK: the number of a section.
fn at_rank(stage: Stage, body: [u8; 1]) -> Result<Stage, Ground>
    ensures { Answers (rank_ground (phase stage) body) (next (phase stage) 2 body) result }
{
    let p = within(stage)?;
    let [rank] = body;
    let rank = u32::from(rank);
    if rank != p.sections {
        return Err(Ground::WrongRank);
    }
    if rank >= p.head.ranks {
        return Err(Ground::Outside);
    }
    Ok(Stage::Within(Progress {
        sections: rank + 1,
        due: 0,
        ..p
    }))
}

// PLACE: the number of the next pixel.
fn at_place(stage: Stage, body: [u8; 2]) -> Result<Stage, Ground>
    ensures { Answers (place_ground (phase stage) body) (next (phase stage) 3 body) result }
{
    let p = within(stage)?;
    let [high, low] = body;
    let number = half(high, low);
    if p.sections == 0 || number <= p.due {
        return Err(Ground::OutOfPlace);
    }
    if number >= p.head.pixels {
        return Err(Ground::Outside);
    }
    Ok(Stage::Within(Progress { due: number, ..p }))
}

// END: nothing may follow.
fn at_end(stage: Stage) -> Result<Stage, Ground>
    ensures { Answers (end_ground (phase stage)) (next (phase stage) 6 []) result }
{
    let p = within(stage)?;
    if p.sections < p.head.ranks {
        return Err(Ground::WrongRank);
    }
    Ok(Stage::Ended(p.head))
}

// A pixel of the kind P.
fn at_pixel<P: Pixel>(stage: Stage, body: &[u8]) -> Result<Stage, Ground>
    requires named { 0 < named_width P.Pixel.model.number }
    requires size { length body.now ≡ 4 * named_width P.Pixel.model.number }
    ensures { Answers (pixel_ground P.Pixel.model.number (phase stage) body.now) (onward (phase stage)) result }
{
    let p = within(stage)?;
    if p.sections == 0 {
        return Err(Ground::OutOfPlace);
    }
    if p.head.kind.number() != P::number() {
        return Err(Ground::WrongKind);
    }
    if read_body::<P>(body).is_none() {
        return Err(Ground::UnlawfulPixel);
    }
    if p.due >= p.head.pixels {
        return Err(Ground::Outside);
    }
    Ok(Stage::Within(Progress {
        due: p.due + 1,
        ..p
    }))
}

// The stage behind a record, or the ground on which it is refused.
pub(crate) fn admit(stage: Stage, item: Item) -> Result<Stage, Ground>
    ensures { Answers (record_ground (phase stage) (kind_of item.entry.content) (body_of item.entry.content)) (next (phase stage) (kind_of item.entry.content) (body_of item.entry.content)) result }
{
    match item.content {
        Record::Head(body) => at_head(stage, sized(body)),
        Record::Rank(body) => at_rank(stage, sized(body)),
        Record::Place(body) => at_place(stage, sized(body)),
        Record::Near(body) => at_pixel::<Nearest>(stage, body),
        Record::Cover(body) => at_pixel::<Coverage>(stage, body),
        Record::End => at_end(stage),
    }
}
