// What a controller sends to its peers and takes from them, on a good image.
#![tactic(auto)]

ghost use Rattle.std.specs.Prelude.{◌≡◌, true, length};
ghost use Rattle.numbers.specs.Numbers.{controller, Crew};
ghost use Rattle.meaning.specs.Exchange.{other_peer, ask};
ghost use Rattle.layout.specs.Image.{image_length, decode, good_image};
ghost use Rattle.layout.specs.Calls.{afterwards};
ghost use Rattle.exchange.specs.Sent.{asked};

use block::Kind;
use numbers::Controller;
use refusal::Refusal;

// 6: "sender or asked party not another peer"
pub fn other_peer(image: &[u8], m: Controller) -> bool
    requires { (length image.now ≡ image_length) × (good_image image.now ≡ true) × Crew m }
    ensures { result ≡ other_peer (decode image.now) m }
{
    let own = head::own_of(&image[0..512]);
    if m == own {
        return false;
    }
    head::peers(&image[8..16], own, m)
}

// "Ask: a message with the own clock, to a peer."
pub fn ask_at(image: &[u8], to: u8, out: &mut [u8]) -> Result<(), Refusal>
    requires { (length image.now ≡ image_length) × (good_image image.now ≡ true) × (length out.old ≡ 512) }
    ensures { (result ≡ (afterwards image.now out.old (asked image.now (ask (decode image.now) (controller to)))).verdict)
        × (out.new ≡ (afterwards image.now out.old (asked image.now (ask (decode image.now) (controller to)))).out) }
{
    if to < 1 {
        return Err(Refusal::OutOfRange);
    }
    if 8 < to {
        return Err(Refusal::OutOfRange);
    }
    let peer = Controller(to);
    if !other_peer(image, peer) {
        return Err(Refusal::NotPeer);
    }
    greeting::write_greeting(
        out,
        Kind::Ask,
        head::own_of(&image[0..512]),
        peer,
        0,
        &image[16..112],
    );
    Ok(())
}
