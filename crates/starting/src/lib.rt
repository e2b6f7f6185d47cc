// Start: a fresh image, on lent buffers.
#![tactic(auto)]

ghost use Rattle.std.specs.Prelude.{◌≡◌, ◌<◌, [], length};
ghost use Rattle.numbers.specs.Numbers.{controller};
ghost use Rattle.meaning.specs.OwnSteps.{fresh};
ghost use Rattle.layout.specs.Image.{image_length, head_of, encode_head, encode_dots, encode};
ghost use Rattle.opening.specs.CallContracts.{Starts};

use block::Kind;
use refusal::Refusal;

// A fresh head: the own number and the table, and nothing seen.
fn write_fresh_head(b: &mut [u8], number: u8, table: &[u8])
    requires { (length b.old ≡ 512) × (length table.now ≡ 8) }
    ensures { b.new ≡ encode_head (head_of (fresh (controller number) table.now)) }
{
    block::clear(b, 0, 512);
    block::put_kind(b, Kind::Head);
    block::put_u8(b, 4, number);
    block::copy_in(b, 8, table);
    block::seal_block(b);
}

// A list of no dots.
fn write_no_dots(b: &mut [u8], position: u16)
    requires { length b.old ≡ 512 }
    ensures { b.new ≡ encode_dots position [] }
{
    block::clear(b, 0, 512);
    block::put_kind(b, Kind::Dots);
    block::put_u16(b, 2, position);
    block::seal_block(b);
}

// "A fresh image from a number and a table; the lent image's old bytes don't matter."
fn write_fresh(image: &mut [u8], number: u8, table: &[u8])
    requires { (length image.old ≡ image_length) × (length table.now ≡ 8) }
    ensures { image.new ≡ encode (fresh (controller number) table.now) }
{
    write_fresh_head(&mut image[0..512], number, table);
    write_no_dots(&mut image[512..1024], 1);
    write_no_dots(&mut image[1024..1536], 2);
    block::clear(image, 1536, 34304);
}

pub fn start(image: &mut [u8], number: u8, table: &[u8]) -> Result<(), Refusal>
    ensures { Starts (λ v. v) image.old number table.now result image.new }
{
    if image.len() != 34304 {
        return Err(Refusal::WrongLength);
    }
    if table.len() != 8 {
        return Err(Refusal::WrongLength);
    }
    if number < 1 {
        return Err(Refusal::OutOfRange);
    }
    if 8 < number {
        return Err(Refusal::OutOfRange);
    }
    write_fresh(image, number, table);
    Ok(())
}
