// The length of a year file held against its header.
ghost use Rattle.std.specs.Prelude.{◌≡◌, length, OnOk};
ghost use Rattle.std.specs.Result.{result_err};
ghost use Rattle.yearfile.specs.File.{announced, length_fault};

use bits::fault::Fault;
use bits::lengths::exactly;
use records::header::Header;

// The bytes of the records that a header announces.
pub fn announced(header: &Header) -> usize
    ensures { result ≡ announced header.now }
{
    15 * usize::from(header.points)
        + 9 * usize::from(header.elements)
        + 5 * usize::from(header.uses)
}

// Whether the rest of the file is as long as the records that the header announces.
pub fn check_length(header: &Header, rest: &[u8]) -> Result<(), Fault>
    ensures fault { result_err result ≡ length_fault header.now rest.now }
    ensures whole { OnOk result (length rest.now ≡ announced header.now) }
{
    exactly(rest, announced(header))
}
