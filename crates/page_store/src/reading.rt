//! Reads of so many bytes of a page.

ghost use Rattle.std.specs.Prelude.{◌≡◌, ◌+◌, ◌≤◌, length};
ghost use Rattle.frame_pool.specs.FrameValue.{zero_bytes};
ghost use Rattle.page_store.specs.Reading.{some_from};

/// Reads the bytes of a page from an offset on.
pub(crate) fn read_bytes(page: &[u8], offset: usize, bytes: &mut [Option<u8>])
    requires { offset + length bytes.old ≤ length page.now }
    ensures { bytes.new ≡ some_from page.now offset (length bytes.old) }
{
    'bytes: for i in 0..bytes.len() {
        bytes[i] = Some(page[offset + i]);
    }
}

/// The same of a page of zeros.
pub(crate) fn read_zeros(offset: usize, bytes: &mut [Option<u8>])
    requires { offset + length bytes.old ≤ 4096 }
    ensures { bytes.new ≡ some_from zero_bytes offset (length bytes.old) }
{
    let _ = offset;
    bytes.fill(Some(0));
}
