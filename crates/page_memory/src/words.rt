//! Addresses, page numbers and offsets; the kinds of accesses, and their widths in bytes.

ghost use Rattle.std.specs.Prelude.{◌≡◌, ◌≢◌, ◌<◌, ◌≤◌, ◌+◌, ◌*◌, ◌/◌, ◌%◌, ◌^◌, None, IfSome};
ghost use Rattle.page_memory.specs.Words.{page_number, page_offset, bytes_in};

/// The bytes of a page.
pub const PAGE_SIZE: usize = 4096;

/// How many pages an address can name.
pub const PAGE_COUNT: u32 = 0x10_0000;

/// What memory is used for by one access.
#[derive(Clone, Copy, PartialEq, Eq, Debug)]
pub enum Access {
    Fetch,
    Load,
    Store,
}

/// How many bytes a load or a store moves.
#[derive(Clone, Copy, PartialEq, Eq, Debug)]
pub enum Width {
    Byte,
    Half,
    Word,
}

impl Width {
    /// The number of bytes: 1, 2 or 4.
    #[inline]
    pub fn bytes(self) -> u32
        ensures { result ≡ bytes_in self }
    {
        match self {
            Width::Byte => 1,
            Width::Half => 2,
            Width::Word => 4,
        }
    }
}

/// The number of the page that an address lies in.
#[inline]
pub fn page_of(address: u32) -> u32
    ensures number { result ≡ page_number address }
    ensures small { result < 2 ^ 20 }
{
    address / 4096
}

/// Where in its page an address lies.
#[inline]
pub fn offset_in_page(address: u32) -> usize
    ensures offset { result ≡ page_offset address }
    ensures small { result < 4096 }
{
    (address % 4096) as usize
}

/// How far an address is past the first one of a page that starts there, where the page serves an access of this width at the
/// address: the address is in the page, and aligned. One subtraction gives the offset and, the compiler makes one comparison of
/// the two, the test. What starts past all addresses serves none.
#[inline(always)]
pub fn offset_past(start: u64, address: u32, width: Width) -> Option<usize>
    requires multiple { start % 4096 ≡ 0 }
    requires limit { start ≤ 4294967296 }
    ensures served { IfSome result (λ _. address / 4096 * 4096 + address % bytes_in width ≡ start) }
    ensures offset { IfSome result (λ past. past ≡ page_offset address) }
    ensures aligned { IfSome result (λ past. past % bytes_in width ≡ 0) }
    ensures small { IfSome result (λ past. past < 4096) }
    ensures none { result ≡ None → address / 4096 * 4096 + address % bytes_in width ≢ start }
{
    let past = u64::from(address).wrapping_sub(start);
    if past < 4096 && past % u64::from(width.bytes()) == 0 {
        Some(past as usize)
    } else {
        None
    }
}
