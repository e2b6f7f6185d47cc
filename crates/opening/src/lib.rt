// What a call begins with: rows 1 and 2 of the table, and row 5 of a point.
#![tactic(auto)]

ghost use Rattle.std.specs.Prelude.{◌≡◌, ◌<◌, length};
ghost use Rattle.numbers.specs.Numbers.{Crew};
ghost use Rattle.numbers.specs.Key.{key};
ghost use Rattle.refusal.specs.Refusal.{verdict_of};
ghost use Rattle.meaning.specs.OwnSteps.{ours};
ghost use Rattle.layout.specs.Image.{image_length, decode};
ghost use Rattle.opening.specs.Admitted.{opened, admitted};

use numbers::{Key, Point};
use refusal::Refusal;

// The point that two numbers name.
pub fn named(job: u8, point: u16) -> Key
    ensures { result ≡ key job point }
{
    Key {
        job: job,
        point: Point(point),
    }
}

// 5: the arguments are in their ranges, and the job is held here.
fn is_ours(image: &[u8], k: Key) -> bool
    requires { (length image.now ≡ image_length) × Crew (decode image.now).own }
    ensures { result ≡ ours (decode image.now) k }
{
    let job = k.job;
    if 7 < job {
        return false;
    }
    if k.point.0 < 1 {
        return false;
    }
    parts::holds(&image[8..16], head::own_of(&image[0..512]), job)
}

// Rows 1 and 2 of the table. `lengths` says whether those of the buffers beside the image are right.
pub fn opens(image: &[u8], lengths: bool) -> Result<(), Refusal>
    ensures { result ≡ verdict_of (opened image.now lengths) }
{
    if image.len() != 34304 {
        return Err(Refusal::WrongLength);
    }
    if !lengths {
        return Err(Refusal::WrongLength);
    }
    if !image::good(image) {
        return Err(Refusal::ImageNotGood);
    }
    Ok(())
}

// Rows 1, 2 and 5.
pub fn admit(image: &[u8], lengths: bool, k: Key) -> Result<(), Refusal>
    ensures { result ≡ verdict_of (admitted image.now lengths k) }
{
    opens(image, lengths)?;
    if !is_ours(image, k) {
        return Err(Refusal::OutOfRange);
    }
    Ok(())
}
