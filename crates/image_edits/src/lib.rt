// The whole image of 67 blocks, edited in the lent bytes, and a stored point as a block of its own.
#![tactic(auto)]

ghost use Rattle.std.specs.Prelude.{◌≡◌, true, ◌+◌, ◌≤◌, ◌<◌, length};
ghost use Rattle.numbers.specs.Words.{ascends?};
ghost use Rattle.numbers.specs.Numbers.{Crew};
ghost use Rattle.block.specs.Kind.{kind_number};
ghost use Rattle.block.specs.Fields.{insert_at, remove_at};
ghost use Rattle.block.specs.Block.{Laid};
ghost use Rattle.meaning.specs.Object.{no_object};
ghost use Rattle.meaning.specs.State.{stored_before, look_up};
ghost use Rattle.layout.specs.Image.{image_length, head_of, decode};
ghost use Rattle.head.specs.HeadEdits.{put_row, put_mark};
ghost use Rattle.record_edits.specs.Written.{lay_point, point_block};
ghost use Rattle.dots.specs.Lists.{list_block};
ghost use Rattle.image_edits.specs.Edits.{Canonical, with_head, with_points, list_of, with_list};

use block::Kind;
use dots::DotList;
use numbers::{Controller, Dot, Key};
use row::Row;

// ---- edits: from one canonical image to another

// The object that is stored for the point k, or the empty one where there is no record, as a block of its own, but for its check.
pub fn fetch(image: &[u8], count: usize, k: Key, kind: Kind, sender: Controller, out: &mut [u8])
    requires { (length image.now ≡ image_length) × Canonical image.now × (count ≡ length (decode image.now).points) × (ascends? stored_before (decode image.now).points ≡ true) × (length out.old ≡ 512) }
    ensures { (point_block out.new ≡ record { kind = kind_number kind; position = 0; point = record { sender = sender; key = k; object = look_up k (decode image.now).points } }) × Laid lay_point point_block out.new }
{
    match image::find_point(image, count, k) {
        Ok(i) => {
            let at = 512 * (3 + i);
            block::copy_in(out, 0, &image[at..at + 512]);
            record_edits::relabel(out, u8::from(kind), 0, sender);
        }
        Err(_) => record_edits::write_empty(out, kind, 0, sender, k),
    }
}

// A place for the point k before the i-th: those from the i-th on move up by a block and say where they stand now; an empty record
// stands there.
pub fn open_place(image: &mut [u8], count: usize, i: usize, k: Key)
    requires { (length image.old ≡ image_length) × Canonical image.old × (count ≡ length (decode image.old).points) × (i ≤ count) × (count < 64) }
    ensures { (decode image.new ≡ with_points (decode image.old) (insert_at (decode image.old).points i (record { key = k; object = no_object })))
        × Canonical image.new }
{
    for to in (i + 1..count + 1).rev() {
        let at = 512 * (3 + to);
        block::move_up(image, at - 512, at, 64);
        record_edits::renumber(&mut image[at..at + 512], (3 + to) as u16);
    }
    let free = 512 * (3 + i);
    record_edits::write_empty(
        &mut image[free..free + 512],
        Kind::Point,
        (3 + i) as u16,
        Controller(0),
        k,
    );
}

// The i-th point goes: those behind it move down by a block, and a block of zeros follows the last.
pub fn close_place(image: &mut [u8], count: usize, i: usize)
    requires { (length image.old ≡ image_length) × Canonical image.old × (count ≡ length (decode image.old).points) × (i < count) }
    ensures { (decode image.new ≡ with_points (decode image.old) (remove_at (decode image.old).points i)) × Canonical image.new }
{
    for j in i..count - 1 {
        let at = 512 * (3 + j);
        block::move_down(image, at + 512, at, 64);
        record_edits::renumber(&mut image[at..at + 512], (3 + j) as u16);
    }
    block::clear(image, 512 * (2 + count), 512 * (3 + count));
}

// Controller n's row.
pub fn set_row(image: &mut [u8], n: Controller, r: Row)
    requires { (length image.old ≡ image_length) × Canonical image.old × Crew n }
    ensures { (decode image.new ≡ with_head (decode image.old) (put_row (head_of (decode image.old)) n r)) × Canonical image.new }
{
    head::set_row(&mut image[0..512], n, r);
    block::seal_block(&mut image[0..512]);
}

// The base of n's row that m is known to have.
pub fn set_mark(image: &mut [u8], m: Controller, n: Controller, base: u32)
    requires { (length image.old ≡ image_length) × Canonical image.old × Crew m × Crew n }
    ensures { (decode image.new ≡ with_head (decode image.old) (put_mark (head_of (decode image.old)) m n base)) × Canonical image.new }
{
    head::set_mark(&mut image[0..512], m, n, base);
    block::seal_block(&mut image[0..512]);
}

// One more dot before the i-th of a list.
pub fn insert_dot(image: &mut [u8], list: DotList, i: usize, d: Dot, k: Key)
    requires { (length image.old ≡ image_length) × Canonical image.old × (i ≤ length (list_of (decode image.old) (list_block list))) × (length (list_of (decode image.old) (list_block list)) < 60) }
    ensures { (decode image.new ≡ with_list (decode image.old) (list_block list) (insert_at (list_of (decode image.old) (list_block list)) i (record { dot = d; key = k }))) × Canonical image.new }
{
    let at = 512 * list.block();
    dots::insert_dot(&mut image[at..at + 512], i, d, k);
    block::seal_block(&mut image[at..at + 512]);
}

// The i-th dot of a list goes.
pub fn remove_dot(image: &mut [u8], list: DotList, i: usize)
    requires { (length image.old ≡ image_length) × Canonical image.old × (i < length (list_of (decode image.old) (list_block list))) }
    ensures { (decode image.new ≡ with_list (decode image.old) (list_block list) (remove_at (list_of (decode image.old) (list_block list)) i)) × Canonical image.new }
{
    let at = 512 * list.block();
    dots::remove_dot(&mut image[at..at + 512], i);
    block::seal_block(&mut image[at..at + 512]);
}
