// The codes of the SPE families as tests: which are commands, and which are acknowledged.
ghost use Rattle.std.specs.Prelude.{◌≡◌};
ghost use Rattle.rules.specs.Codes.{is_code, is_ack_code};

// The code of the request for a report.
const REQUEST: u8 = 0x90;

// Whether c is one of the twenty command codes. All tests are made, so that none has to be guessed.
pub fn is_code(c: u8) -> bool
    ensures { result ≡ is_code c }
{
    ((0x01 <= c) & (c <= 0x11)) | (c == 0x82) | (c == 0x83) | (c == REQUEST)
}

// Whether c is acknowledged: a code, but not the request for a report.
#[tactic(auto, unfolding(rules::specs::Codes::is_ack_code))]
pub fn is_ack_code(c: u8) -> bool
    ensures { result ≡ is_ack_code c }
{
    is_code(c) & (c != REQUEST)
}
