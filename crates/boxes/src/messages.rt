// Messages in memory: the length, and then the words.
ghost use Rattle.std.specs.Prelude.{◌≡◌, ◌+◌, ◌<◌, ◌≤◌, ◌∷◌, ◌++◌, length, take, drop, slice_index};

// Writes a message first into `area`, behind its length.
pub(super) fn write_message(area: &mut [u32], message: &[u32])
    requires short { length message.now ≤ 5200 }
    requires room { length message.now < length area.old }
    ensures { area.new ≡ length message.now ∷ message.now ++ drop (length message.now + 1) area.old }
{
    area[0] = message.len() as u32;
    area[1..1 + message.len()].copy_from_slice(message);
}

// Copies the message that stands first in `words`, behind its length, first into `area`, and answers its length.
pub(super) fn read_message(words: &[u32], area: &mut [u32]) -> usize
    requires within { slice_index words.now 0 < length words.now }
    requires room { slice_index words.now 0 ≤ length area.old }
    ensures is { result ≡ slice_index words.now 0 }
    ensures after { area.new ≡ take result (drop 1 words.now) ++ drop result area.old }
{
    let count = words[0] as usize;
    area[..count].copy_from_slice(&words[1..1 + count]);
    count
}
