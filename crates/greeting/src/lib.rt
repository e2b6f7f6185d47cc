// The block that an ask is and that a reply begins with: who sends it, to whom, and the sender's clock.
#![tactic(auto)]

ghost use Rattle.std.specs.Prelude.{◌≡◌, ◌||◌, length};
ghost use Rattle.block.specs.Kind.{kind_number};
ghost use Rattle.numbers.specs.Words.{all?, same_list};
ghost use Rattle.numbers.specs.Numbers.{controllers, Crew};
ghost use Rattle.meaning.specs.CrewTable.{in_some_job};
ghost use Rattle.meaning.specs.Clock.{row};
ghost use Rattle.meaning.specs.Message.{is_none, clock_formed, ask_formed};
ghost use Rattle.layout.specs.Clocks.{decode_clock};
ghost use Rattle.layout.specs.Messages.{encode_greeting, decode_ask};

use block::Kind;
use numbers::Controller;

// "Kind 5, ask; 6, reply head: 4 sender; 5 addressee; 6-7 number of points (0 in kind 5); 8-103 clock rows."
pub fn write_greeting(
    b: &mut [u8],
    kind: Kind,
    sender: Controller,
    addressee: Controller,
    points: u16,
    rows: &[u8],
)
    requires { (length b.old ≡ 512) × (length rows.now ≡ 96) }
    ensures { b.new ≡ encode_greeting (kind_number kind) sender addressee points (decode_clock rows.now) }
{
    block::clear(b, 0, 512);
    block::put_kind(b, kind);
    block::put_u8(b, 4, sender.0);
    block::put_u8(b, 5, addressee.0);
    block::put_u16(b, 6, points);
    block::copy_in(b, 8, rows);
    block::seal_block(b);
}

// "4 sender"
pub fn sender_of(b: &[u8]) -> Controller
    requires { length b.now ≡ 512 }
    ensures { result ≡ (decode_ask b.now).sender }
{
    Controller(block::u8_at(b, 4))
}

// "5 addressee"
pub fn addressee_of(b: &[u8]) -> Controller
    requires { length b.now ≡ 512 }
    ensures { result ≡ (decode_ask b.now).addressee }
{
    Controller(block::u8_at(b, 5))
}

// Kind, format 1, position 0, the number of points, the unused bytes zero, and the check right; every other byte is read and written back as it is.
pub fn greeting_laid_out(b: &[u8], kind: Kind, points: u16) -> bool
    requires { length b.now ≡ 512 }
    ensures { result ≡ same_list (encode_greeting (kind_number kind) (decode_ask b.now).sender (decode_ask b.now).addressee points (decode_ask b.now).clock) b.now }
{
    if !block::headed(b, kind, 0) {
        return false;
    }
    if block::u16_at(b, 6) != points {
        return false;
    }
    if !block::is_zero(b, 104, 508) {
        return false;
    }
    block::is_sealed(b)
}

// ---- what is well-formed in it, of refusal 4

// A controller that holds one of the eight jobs.
fn in_some_job(table: &[u8], n: Controller) -> bool
    requires { (length table.now ≡ 8) × Crew n }
    ensures { result ≡ in_some_job table.now n }
{
    head::shares_job(table, n, n)
}

// "a row for a controller in no job" is ill-formed
fn row_named(table: &[u8], rows: &[u8], n: Controller) -> bool
    requires { (length table.now ≡ 8) × (length rows.now ≡ 96) × Crew n }
    ensures { result ≡ (in_some_job table.now n || is_none (row (decode_clock rows.now) n)) }
{
    if in_some_job(table, n) {
        return true;
    }
    head::row_none(parts::row_at(rows, n))
}

fn rows_named(table: &[u8], rows: &[u8]) -> bool
    requires { (length table.now ≡ 8) × (length rows.now ≡ 96) }
    ensures { result ≡ all? (λ n. in_some_job table.now n || is_none (row (decode_clock rows.now) n)) controllers }
{
    (1..9).all(|n| row_named(table, rows, Controller(n)))
}

// Each row is sound, none is for a controller in no job, and the sender's own row has no bits.
pub fn clock_formed(table: &[u8], sender: Controller, rows: &[u8]) -> bool
    requires { (length table.now ≡ 8) × Crew sender × (length rows.now ≡ 96) }
    ensures { result ≡ clock_formed table.now sender (decode_clock rows.now) }
{
    if !head::rows_sound(rows) {
        return false;
    }
    if !rows_named(table, rows) {
        return false;
    }
    let own = parts::row_at(rows, sender);
    own.bits == 0
}

// Sender and addressee are controllers, and the clock is well-formed.
pub fn ask_formed(b: &[u8], table: &[u8]) -> bool
    requires { (length b.now ≡ 512) × (length table.now ≡ 8) }
    ensures { result ≡ ask_formed table.now (decode_ask b.now) }
{
    let sender = sender_of(b);
    if !record::is_controller(sender) {
        return false;
    }
    if !record::is_controller(addressee_of(b)) {
        return false;
    }
    clock_formed(table, sender, &b[8..104])
}
