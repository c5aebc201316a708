// The comment header (Theora I, 6.1 and 6.3).
ghost use Rattle.std.specs.Prelude.{◌≡◌, None, Some, Ok, IfOk, IfErr};
ghost use Rattle.vid_base.specs.declared.fault.PacketFault.TheVariants.{CommentLength};
ghost use Rattle.thr_ident.specs.Comment.{comment_of, own_comment, length_in, after_text, after_texts};

use vid_base::PacketFault;

/// The first bytes of a comment header: its type, and the codec's name (Theora I, 6.1).
const COMMENT_NAME: [u8; 7] = [0x81, b't', b'h', b'e', b'o', b'r', b'a'];

/// The comment header of streams that are made here.
const OWN_COMMENT: [u8; 21] = *b"\x81theora\x06\0\0\0oggcut\0\0\0\0";

/// The number at the front, and the bytes behind it.
#[tactic(auto, unfolding(crate::specs::Comment::length_in))]
fn read_length(bytes: &[u8]) -> Result<(u32, &[u8]), PacketFault>
    ensures value { IfOk result (λ found. length_in bytes.now ≡ Some (found.0, found.1.now)) }
    ensures fault { IfErr result (λ fault. (fault ≡ CommentLength) × (length_in bytes.now ≡ None)) }
{
    match bytes {
        [a, b, c, d, rest @ ..] => Ok((u32::from_le_bytes([*a, *b, *c, *d]), rest)),
        _ => Err(PacketFault::CommentLength),
    }
}

/// The bytes behind a length and its text.
#[tactic(auto, unfolding(crate::specs::Comment::after_text))]
fn skip_text(bytes: &[u8]) -> Result<&[u8], PacketFault>
    ensures value { IfOk result (λ rest. after_text bytes.now ≡ Some rest.now) }
    ensures fault { IfErr result (λ fault. (fault ≡ CommentLength) × (after_text bytes.now ≡ None)) }
{
    let (length, text) = read_length(bytes)?;
    let length = length as usize;
    if text.len() < length {
        return Err(PacketFault::CommentLength);
    }
    Ok(&text[length..])
}

/// The bytes behind so many lengths and their texts. Each has 4 bytes or more, so a count that the packet cannot hold
/// costs no more than the packet.
#[tactic(auto, using(crate::proofs::CommentLemmas::texts_step, crate::proofs::CommentLemmas::texts_fault, crate::proofs::CommentLemmas::texts_end))]
fn skip_texts(bytes: &[u8], count: u32) -> Result<&[u8], PacketFault>
    ensures value { IfOk result (λ rest. after_texts count bytes.now ≡ Some rest.now) }
    ensures fault { IfErr result (λ fault. (fault ≡ CommentLength) × (after_texts count bytes.now ≡ None)) }
{
    let mut rest = bytes;
    'texts: for _ in 0..count {
        rest = skip_text(rest)?;
    }
    Ok(rest)
}

/// Looks for the first fault of a comment header: `NotComment`, where the first 7 bytes are not its; `CommentLength`,
/// where a length is not whole or a text passes the end. Texts are not looked at, nor are bytes behind the last.
#[tactic(auto, unfolding(crate::specs::Comment::comment_of, crate::specs::Comment::comment_rules, vid_base::specs::Rules::first_fault, crate::specs::Comment::after_comments))]
pub fn read_comment(bytes: &[u8]) -> Result<(), PacketFault>
    ensures { result ≡ comment_of bytes.now }
{
    if !bytes.starts_with(&COMMENT_NAME) {
        return Err(PacketFault::NotComment);
    }
    let rest = skip_text(&bytes[COMMENT_NAME.len()..])?;
    let (count, rest) = read_length(rest)?;
    skip_texts(rest, count)?;
    Ok(())
}

/// The comment header of streams that are made here: the vendor is `oggcut`, and there are no comments. `read_comment`
/// accepts it.
pub fn own_comment() -> &'static [u8]
    ensures bytes { result.now ≡ own_comment }
    ensures accepted { comment_of result.now ≡ Ok tt }
{
    &OWN_COMMENT
}
