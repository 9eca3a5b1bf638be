//! The first fault of a file's program headers: each test is made on all headers before the next test.

ghost use Rattle.std.specs.Prelude.{◌≡◌, ◌+◌, ◌*◌, ◌<◌, ◌≤◌, length};
ghost use Rattle.std.specs.List.{list_any};
ghost use Rattle.elf_image.specs.ElfFiles.{program_headers, program_fault, headers_offset, headers_count};
ghost use Rattle.elf_image.specs.HeaderTests.{fails};

use crate::fault::ElfFault;
use crate::file_header::{headers_count, headers_offset};
use crate::format::PROGRAM_HEADER_SIZE;
use crate::program_header::ProgramHeader;

/// What is tested of each program header.
#[derive(Clone, Copy, PartialEq, Eq, Debug)]
enum HeaderTest {
    IsDynamic,
    IsOutOfFile,
    IsLargerInFile,
    IsOutOfRange,
}

/// The first fault of the program headers, each test over all of them before the next.
#[tactic(auto, using(crate::proofs::Headers::program_fault_by_tests))]
pub(crate) fn program_fault(file: &[u8]) -> Option<ElfFault>
    requires long { 52 ≤ length file.now }
    requires within { 0 < headers_count file.now →
        headers_offset file.now + 32 * headers_count file.now ≤ length file.now }
    ensures { result ≡ program_fault file.now }
{
    if any_fails(file, HeaderTest::IsDynamic) {
        Some(ElfFault::Dynamic)
    } else if any_fails(file, HeaderTest::IsOutOfFile) {
        Some(ElfFault::SegmentOutOfFile)
    } else if any_fails(file, HeaderTest::IsLargerInFile) {
        Some(ElfFault::SizeOrder)
    } else if any_fails(file, HeaderTest::IsOutOfRange) {
        Some(ElfFault::Range)
    } else {
        None
    }
}

/// Whether a program header fails a test.
fn any_fails(file: &[u8], test: HeaderTest) -> bool
    requires long { 52 ≤ length file.now }
    requires within { 0 < headers_count file.now →
        headers_offset file.now + 32 * headers_count file.now ≤ length file.now }
    ensures { result ≡ list_any (fails test (length file.now)) (program_headers file.now) }
{
    let start = headers_offset(file) as usize;
    for place in 0..headers_count(file) as usize {
        let header = ProgramHeader::read(file, start + PROGRAM_HEADER_SIZE * place);
        if fails(&header, test, file.len()) {
            return true;
        }
    }
    false
}

/// Whether a header fails a test, in a file of so many bytes.
fn fails(header: &ProgramHeader, test: HeaderTest, size: usize) -> bool
    ensures { result ≡ fails test size header.now }
{
    match test {
        HeaderTest::IsDynamic => header.is_dynamic(),
        HeaderTest::IsOutOfFile => header.is_load() && header.is_out_of_file(size),
        HeaderTest::IsLargerInFile => header.is_load() && header.is_larger_in_file(),
        HeaderTest::IsOutOfRange => header.is_load() && header.is_out_of_range(),
    }
}
