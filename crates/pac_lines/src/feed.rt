// Line feeds.
ghost use Rattle.std.specs.Prelude.{◌≡◌, ◌<◌, length, IfSome, nat_eq, position};
ghost use Rattle.pac_value.specs.Ascii.{line_feed};

use memchr::memchr;

/// Where the first line feed of bytes stands. In many bytes it looks at 32 at a time.
pub fn feed_at(bytes: &[u8]) -> Option<usize>
    ensures offset { result ≡ position (λ b. nat_eq b line_feed) bytes.now }
    ensures within { IfSome result (λ at. at < length bytes.now) }
{
    memchr(b'\n', bytes)
}
