// Repair takes the reply through the reader: "The repair takes it as a reader that hands out one point's block at a time" (document 01). Both functions hold
// a reader, so each is proved by a walk; the work stands in repairing, on the lent bytes and the position.
#![tactic(auto)]

ghost use Rattle.std.specs.Prelude.{◌≡◌};
ghost use Rattle.reading.specs.Reading.{Repairable, Repairs};

use reader::Reader;
use refusal::Refusal;

// The reader is taken apart; it has handed out nothing yet.
pub fn repair_by<'i, 'a>(image: &'i mut [u8], r: Reader<'a>) -> Result<(), Refusal>
    requires { Repairable image.old r.reply.now × (r.at ≡ 0) }
    ensures { Repairs image.old r.entry.reply.now result image.new }
{
    repairing::repair_at(image, r.reply, r.at)
}

// The reply is given a reader at its first point, so that a caller has plain slices only.
pub fn repair_read<'i, 'a>(image: &'i mut [u8], reply: &'a [u8]) -> Result<(), Refusal>
    requires { Repairable image.old reply.now }
    ensures { Repairs image.old reply.now result image.new }
{
    let r = reader::new(reply);
    repair_by(image, r)
}
