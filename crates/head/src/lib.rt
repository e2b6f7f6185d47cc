// The image's head: who we are, the crew table, the clock rows and the watermark, read and edited in the lent bytes.
// "Kind 1, image head: 4 own number; 8-15 table; 16-111 eight clock rows; 112-367 watermark, row m then column n, 4 each."
#![tactic(auto)]

ghost use Rattle.std.specs.Prelude.{◌≡◌, ◌||◌, length};
ghost use Rattle.numbers.specs.Words.{same_list};
ghost use Rattle.numbers.specs.Numbers.{Crew, same_controller};
ghost use Rattle.block.specs.Block.{Laid};
ghost use Rattle.meaning.specs.CrewTable.{share_job};
ghost use Rattle.meaning.specs.Clock.{every_row};
ghost use Rattle.meaning.specs.State.{mark};
ghost use Rattle.meaning.specs.Message.{is_none};
ghost use Rattle.layout.specs.Clocks.{decode_clock};
ghost use Rattle.layout.specs.Image.{encode_head, decode_head, decode_marks};
ghost use Rattle.head.specs.HeadEdits.{put_row, put_mark};
ghost use Rattle.head.specs.HeadGood.{head_good};
ghost use Rattle.head.specs.HeadParts.{head_of_parts, row_good, rows_allowed, marks_row_allowed, marks_allowed, own_row_known, own_column};

use block::Kind;
use numbers::Controller;
use row::Row;

// "4 own number"
pub fn own_of(b: &[u8]) -> Controller
    requires { length b.now ≡ 512 }
    ensures { result ≡ (decode_head b.now).own }
{
    Controller(block::u8_at(b, 4))
}

// "for controllers m and n, the highest base of n's row that m is known to have": "row m then column n, 4 each"
pub fn mark_at(marks: &[u8], m: Controller, n: Controller) -> u32
    requires { (length marks.now ≡ 256) × Crew m × Crew n }
    ensures { result ≡ mark (decode_marks marks.now) m n }
{
    let of = m.0;
    let about = n.0;
    block::u32_at(marks, 32 * ((of - 1) as usize) + 4 * ((about - 1) as usize))
}

// One of the eight jobs is held by both.
pub fn shares_job(table: &[u8], n: Controller, m: Controller) -> bool
    requires { (length table.now ≡ 8) × Crew n × Crew m }
    ensures { result ≡ share_job table.now n m }
{
    (0..8).any(|j| parts::holds(table, n, j) && parts::holds(table, m, j))
}

// "Peers of n are the controllers that share a job with it, n included."
pub fn peers(table: &[u8], n: Controller, m: Controller) -> bool
    requires { (length table.now ≡ 8) × Crew n × Crew m }
    ensures { result ≡ (same_controller n m || share_job table.now n m) }
{
    if n == m {
        return true;
    }
    shares_job(table, n, m)
}

// Kind 1, format 1, position 0, the unused bytes 5-7 and 368-507 zero, and the check right; every other byte is read and written back as it is.
pub fn head_laid_out(b: &[u8]) -> bool
    requires { length b.now ≡ 512 }
    ensures { result ≡ same_list (encode_head (decode_head b.now)) b.now }
{
    if !block::headed(b, Kind::Head, 0) {
        return false;
    }
    if !block::is_zero(b, 5, 8) {
        return false;
    }
    if !block::is_zero(b, 368, 508) {
        return false;
    }
    block::is_sealed(b)
}

// "Bit 0 is never set. No row stands for a counter above 4,294,967,295": no bit is set at or above the places that are left up to it.
pub fn row_sound(r: Row) -> bool
    ensures { result ≡ row_good r }
{
    let base = r.base;
    let bits = r.bits;
    if bits % 2 != 0 {
        return false;
    }
    let left = 4294967295 - base;
    if 64 <= left {
        return true;
    }
    bits >> left == 0
}

// A row of which nothing was seen.
pub fn row_none(r: Row) -> bool
    ensures { result ≡ is_none r }
{
    if r.base != 0 {
        return false;
    }
    r.bits == 0
}

// Each of the eight rows is sound.
pub fn rows_sound(rows: &[u8]) -> bool
    requires { length rows.now ≡ 96 }
    ensures { result ≡ every_row row_good (decode_clock rows.now) }
{
    (1..9).all(|n| row_sound(parts::row_at(rows, Controller(n))))
}

// "clock rows of non-peers are zero"
pub fn rows_allowed(own: Controller, table: &[u8], rows: &[u8]) -> bool
    requires { Crew own × (length table.now ≡ 8) × (length rows.now ≡ 96) }
    ensures { result ≡ rows_allowed own table.now (decode_clock rows.now) }
{
    (1..9).all(|n| {
        row_none(parts::row_at(rows, Controller(n))) || peers(table, own, Controller(n))
    })
}

// "the watermark is zero for non-peers": of the row of m, a peer or not.
pub fn marks_row_allowed(own: Controller, table: &[u8], marks: &[u8], m: Controller) -> bool
    requires { Crew own × (length table.now ≡ 8) × (length marks.now ≡ 256) × Crew m }
    ensures { result ≡ marks_row_allowed own table.now (decode_marks marks.now) m }
{
    (1..9).all(|n| {
        mark_at(marks, m, Controller(n)) == 0
            || peers(table, own, m) && peers(table, own, Controller(n))
    })
}

// The same of every row.
pub fn marks_allowed(own: Controller, table: &[u8], marks: &[u8]) -> bool
    requires { Crew own × (length table.now ≡ 8) × (length marks.now ≡ 256) }
    ensures { result ≡ marks_allowed own table.now (decode_marks marks.now) }
{
    (1..9).all(|m| marks_row_allowed(own, table, marks, Controller(m)))
}

// "and no higher than our own rows in our row"
pub fn own_row_known(own: Controller, rows: &[u8], marks: &[u8]) -> bool
    requires { Crew own × (length rows.now ≡ 96) × (length marks.now ≡ 256) }
    ensures { result ≡ own_row_known own (decode_clock rows.now) (decode_marks marks.now) }
{
    (1..9).all(|n| {
        mark_at(marks, own, Controller(n)) <= parts::row_at(rows, Controller(n)).base
    })
}

// "no own entry anywhere is above the own base": of the watermark, the own column.
pub fn own_column_known(own: Controller, base: u32, marks: &[u8]) -> bool
    requires { Crew own × (length marks.now ≡ 256) }
    ensures { result ≡ own_column own base (decode_marks marks.now) }
{
    (1..9).all(|m| mark_at(marks, Controller(m), own) <= base)
}

// All clauses of a good state that speak of the head alone, on its parts.
pub fn parts_good(own: Controller, table: &[u8], rows: &[u8], marks: &[u8]) -> bool
    requires { (length table.now ≡ 8) × (length rows.now ≡ 96) × (length marks.now ≡ 256) }
    ensures { result ≡ head_good (head_of_parts own table.now rows.now marks.now) }
{
    let who = own.0;
    if who < 1 {
        return false;
    }
    if 8 < who {
        return false;
    }
    if !rows_sound(rows) {
        return false;
    }
    let ours = parts::row_at(rows, own);
    if ours.bits != 0 {
        return false;
    }
    if !rows_allowed(own, table, rows) {
        return false;
    }
    if !marks_allowed(own, table, marks) {
        return false;
    }
    if !own_row_known(own, rows, marks) {
        return false;
    }
    own_column_known(own, ours.base, marks)
}

// The same of the head block, whose parts are lent.
pub fn head_good(b: &[u8]) -> bool
    requires { length b.now ≡ 512 }
    ensures { result ≡ head_good (decode_head b.now) }
{
    parts_good(own_of(b), &b[8..16], &b[16..112], &b[112..368])
}

// ---- edits: the head says something else and is laid out still, but for its check, which is made after the last of them

// Controller n's row.
pub fn set_row(b: &mut [u8], n: Controller, r: Row)
    requires { (length b.old ≡ 512) × Crew n × Laid encode_head decode_head b.old }
    ensures { (decode_head b.new ≡ put_row (decode_head b.old) n r) × Laid encode_head decode_head b.new }
{
    let who = n.0;
    let at = 16 + 12 * ((who - 1) as usize);
    block::put_u32(b, at, r.base);
    block::put_u64(b, at + 4, r.bits);
}

// The base of n's row that m is known to have.
pub fn set_mark(b: &mut [u8], m: Controller, n: Controller, base: u32)
    requires { (length b.old ≡ 512) × Crew m × Crew n × Laid encode_head decode_head b.old }
    ensures { (decode_head b.new ≡ put_mark (decode_head b.old) m n base) × Laid encode_head decode_head b.new }
{
    let of = m.0;
    let about = n.0;
    block::put_u32(
        b,
        112 + 32 * ((of - 1) as usize) + 4 * ((about - 1) as usize),
        base,
    );
}
