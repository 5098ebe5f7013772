//! Copies into the buffers of a caller, as far as there is room.

ghost use Rattle.std.specs.Prelude.{◌≡◌, ℕ, ◌<◌, ◌≤◌, length, slice_index_or};
ghost use Rattle.c_library.specs.Reports.{AreValues, IsFrontOf};

/// Copies a text to the front of a buffer, as much of it as there is room for; what stands behind it stays.
pub(crate) fn copy_front(buffer: &mut [u8], text: &[u8])
    ensures front { IsFrontOf text.now buffer.new }
    ensures behind { (i : ℕ) → length text.now ≤ i → i < length buffer.new → slice_index_or buffer.new i 0 ≡ slice_index_or buffer.old i 0 }
    ensures room { length buffer.new ≡ length buffer.old }
{
    let count = text.len().min(buffer.len());
    buffer[..count].copy_from_slice(&text[..count]);
}

/// Writes a byte for each value to the front of a buffer, 0 or 1, as many as there is room for.
pub(crate) fn copy_values(buffer: &mut [u8], values: &[bool])
    ensures { AreValues values.now buffer.new }
{
    let count = values.len().min(buffer.len());
    for at in 0..count {
        buffer[at] = u8::from(values[at]);
    }
}
