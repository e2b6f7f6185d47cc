// A point block, stored or sent, edited in the lent bytes, and a version in hand.
#![tactic(auto)]

ghost use Rattle.std.specs.Prelude.{◌≡◌, ◌+◌, ◌-◌, ◌*◌, ◌≤◌, ◌<◌, length, IfSome};
ghost use Rattle.numbers.specs.Numbers.{Crew};
ghost use Rattle.block.specs.Kind.{kind_number};
ghost use Rattle.block.specs.Fields.{insert_at, remove_at};
ghost use Rattle.block.specs.Block.{Laid};
ghost use Rattle.meaning.specs.Object.{no_object};
ghost use Rattle.layout.specs.PointBlock.{form_1, encode_slot, decode_slot, encode_point, decode_point, encode_stored, decode_stored};
ghost use Rattle.record_edits.specs.Said.{contents_of};
ghost use Rattle.record_edits.specs.Written.{lay_point, point_block, with_versions, put_entry, relabelled};

use block::Kind;
use numbers::{Controller, Counter, Dot, Key};

// ---- a version in hand: 32 bytes as they stand in a slot

// A version with the value that is said, or a deletion.
pub fn make_slot(slot: &mut [u8], d: Dot, said: Option<&[u8]>)
    requires { (length slot.old ≡ 32) × IfSome said (λ v. length v.now ≤ 24) }
    ensures { slot.new ≡ encode_slot form_1 (record { dot = d; contents = contents_of said.entry }) }
{
    block::clear(slot, 0, 32);
    block::put_u8(slot, 0, d.who.0);
    block::put_u32(slot, 4, d.count.0);
    match said {
        Some(value) => {
            block::put_u8(slot, 1, value.len() as u8);
            block::copy_in(slot, 8, value);
        }
        None => block::put_u8(slot, 1, 255),
    }
}

// ---- edits of a point block: it says something else and is laid out still, but for its check, which is made after the last of them

// "no version and an empty context": the whole block, its check too.
pub fn write_empty(b: &mut [u8], kind: Kind, position: u16, sender: Controller, k: Key)
    requires { length b.old ≡ 512 }
    ensures { b.new ≡ encode_point form_1 (kind_number kind) position (record { sender = sender; key = k; object = no_object }) }
{
    block::clear(b, 0, 512);
    block::put_kind(b, kind);
    block::put_u16(b, 2, position);
    block::put_u8(b, 4, k.job);
    block::put_u16(b, 6, k.point.0);
    block::put_u8(b, 296, sender.0);
    block::seal_block(b);
}

// The same point as another kind of block, at another place, from another sender: a record as a message, a message as a record. The kind is a
// number here, and any byte: README names this function's contract, which says so.
pub fn relabel(b: &mut [u8], kind: u8, position: u16, from: Controller)
    requires { (length b.old ≡ 512) × Laid lay_point point_block b.old }
    ensures { (point_block b.new ≡ relabelled (point_block b.old) kind position from) × Laid lay_point point_block b.new }
{
    block::put_u8(b, 0, kind);
    block::put_u16(b, 2, position);
    block::put_u8(b, 296, from.0);
}

// The context's counter for controller n.
pub fn set_entry(b: &mut [u8], n: Controller, c: Counter)
    requires { (length b.old ≡ 512) × Crew n × Laid lay_point point_block b.old }
    ensures { (point_block b.new ≡ put_entry (point_block b.old) n c) × Laid lay_point point_block b.new }
{
    let who = n.0;
    block::put_u32(b, 8 + 4 * ((who - 1) as usize), c.0);
}

// One more version, before version i.
pub fn insert_version(b: &mut [u8], i: usize, slot: &[u8])
    requires { (length b.old ≡ 512) × Laid lay_point point_block b.old × (i ≤ length (decode_point form_1 b.old).object.versions) × (length (decode_point form_1 b.old).object.versions < 8)
        × (length slot.now ≡ 32) × (encode_slot form_1 (decode_slot form_1 slot.now) ≡ slot.now) }
    ensures { (point_block b.new ≡ with_versions (point_block b.old) (insert_at (decode_point form_1 b.old).object.versions i (decode_slot form_1 slot.now)))
        × Laid lay_point point_block b.new }
{
    let n = record::version_count(b) as usize;
    let at = 40 + 32 * i;
    block::move_up(b, at, at + 32, 4 * (n - i));
    block::copy_in(b, at, slot);
    block::put_u8(b, 5, (n + 1) as u8);
}

// Version i goes.
pub fn remove_version(b: &mut [u8], i: usize)
    requires { (length b.old ≡ 512) × Laid lay_point point_block b.old × (i < length (decode_point form_1 b.old).object.versions) }
    ensures { (point_block b.new ≡ with_versions (point_block b.old) (remove_at (decode_point form_1 b.old).object.versions i))
        × Laid lay_point point_block b.new }
{
    let n = record::version_count(b) as usize;
    let at = 40 + 32 * i;
    block::move_down(b, at + 32, at, 4 * (n - i - 1));
    block::clear(b, 8 + 32 * n, 40 + 32 * n);
    block::put_u8(b, 5, (n - 1) as u8);
}

// A record that was moved says where it stands now; its check is made anew.
pub fn renumber(b: &mut [u8], position: u16)
    requires { (length b.old ≡ 512) × Laid lay_point point_block b.old }
    ensures { b.new ≡ encode_stored form_1 position (decode_stored form_1 b.old) }
{
    relabel(b, u8::from(Kind::Point), position, Controller(0));
    block::seal_block(b);
}
