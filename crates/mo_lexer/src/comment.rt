//! Comments.
ghost use Rattle.std.specs.Prelude.{◌≡◌, ◌≤◌, length, OnSome, IfSome};
ghost use Rattle.mo_lexer.specs.Reading as spec;

/// How many bytes of a block comment follow its opening mark. `None` where it is not closed.
pub fn block_len(body: &[u8]) -> Option<usize>
    ensures value { result ≡ spec.block_len 1 body.now }
    ensures within { IfSome result (λ len. len ≤ length body.now) }
{
    let mut comments: usize = 1;
    let mut at: usize = 0;
    while at + 1 < body.len() {
        let byte = body[at];
        let next = body[at + 1];
        if byte == b'*' && next == b'/' {
            at += 2;
            comments -= 1;
            if comments == 0 {
                return Some(at);
            }
        } else if byte == b'/' && next == b'*' {
            at += 2;
            comments += 1;
        } else {
            at += 1;
        }
    }
    None
}
