//! Requests for ciphers, MACs and keys.

ghost use Rattle.std.specs.Prelude.{◌≡◌, ◌≢◌, [], true, Ok, IfErr, IfOk, IfSome};
ghost use Rattle.text_tables.specs.Words.{words};
ghost use Rattle.request_text.specs.declared.key_line.KeyLine.TheVariants as key;
ghost use Rattle.text_tables.specs.IsValidRow.{IsValidRow};
ghost use Rattle.request_text.specs.Keys.{row_of, ciphersuite_of, asked_of, asked_by, key_line};
ghost use Rattle.request_text.specs.Keys.{read_into, asked_into, HasSizes};

use octet_lists::{Injected, MAX_NAME, Octets, Suite};
use text_tables::{
    Field, LineFault, Row, TableWord, array, fault_of_words, is_comment, octets, read_keyword,
    word_in,
};

/// The first word of a request.
#[derive(Clone, Copy)]
pub enum Request {
    Aes,
    Cmac,
    Hmac,
    Eax,
    Gpsk,
    Psk,
    Name,
}

const REQUESTS: [Request; 7] = [
    Request::Aes,
    Request::Cmac,
    Request::Hmac,
    Request::Eax,
    Request::Gpsk,
    Request::Psk,
    Request::Name,
];

const BLOCK: Field = Field::Hex { low: 16, high: 16 };

const NONCE: Field = Field::Hex { low: 32, high: 32 };

const NAME: Field = Field::Hex {
    low: 0,
    high: MAX_NAME,
};

const TEXT: Field = Field::Hex { low: 0, high: 2000 };

impl TableWord for Request {
    ghost row_of = { row_of };

    fn row(self) -> Row {
        match self {
            Request::Aes => Row::new(b"aes", 2, &[BLOCK, BLOCK]),
            Request::Cmac => Row::new(b"cmac", 2, &[BLOCK, TEXT]),
            Request::Hmac => Row::new(b"hmac", 2, &[TEXT, TEXT]),
            Request::Eax => Row::new(b"eax", 4, &[BLOCK, TEXT, TEXT, TEXT]),
            Request::Gpsk => Row::new(
                b"gpsk",
                6,
                &[
                    Field::Suite,
                    Field::Hex { low: 32, high: 64 },
                    NONCE,
                    NAME,
                    NONCE,
                    NAME,
                ],
            ),
            Request::Psk => Row::new(b"psk", 2, &[BLOCK, BLOCK]),
            Request::Name => Row::new(b"name", 1, &[TEXT]),
        }
    }
}

/// A request for a cipher, a MAC, a key schedule or the name of a key. Fields without a stated size
/// have 0 to 2,000 octets.
#[derive(Drop)]
pub enum KeyLine {
    /// AES-128 of a block.
    Aes {
        key: [u8; 16],
        block: [u8; 16],
    },
    /// AES-CMAC of a text.
    Cmac {
        key: [u8; 16],
        text: Injected,
    },
    /// HMAC-SHA256 of a text.
    Hmac {
        key: Injected,
        text: Injected,
    },
    /// EAX over AES-128.
    Eax {
        key: [u8; 16],
        nonce: Injected,
        header: Injected,
        text: Injected,
    },
    /// The key schedule of EAP-GPSK: `psk` has 32 to 64 octets, `idp` and `ids` at most 253.
    Gpsk {
        suite: Suite,
        psk: Injected,
        randp: [u8; 32],
        idp: Injected,
        rands: [u8; 32],
        ids: Injected,
    },
    /// The key schedule of EAP-PSK.
    Psk {
        psk: [u8; 16],
        randp: [u8; 16],
    },
    /// The name of a key.
    Name {
        key: Injected,
    },
}

impl KeyLine {
    /// A request into which others are read: the name of a key without octets.
    pub fn new() -> KeyLine
        ensures { result ≡ key.Name [] }
    {
        KeyLine::Name { key: Octets::new() }
    }
}

/// Reads the request that a line is into `asked`, and answers true; or the first fault of its words:
/// `BadWord`, `BadCount`, `BadNumber`, `BadHex`, `BadSize`. The fault decides, whichever word has it. False
/// for an empty line and for one that begins with `#`. Without a request, `asked` stays as it was.
#[tactic(auto, unfolding(crate::specs::Keys::key_line), using(crate::proofs::KeyJudging::request_sizes))]
pub fn read_key_line_into(line: &[u8], asked: &mut KeyLine) -> Result<bool, LineFault>
    ensures value { read_into result asked.new ≡ key_line line.now }
    ensures sizes { result ≡ Ok true → HasSizes asked.new }
    ensures unchanged { result ≢ Ok true → asked.new ≡ asked.old }
{
    if is_comment(line) {
        return Ok(false);
    }
    read_request(line, asked)?;
    Ok(true)
}

/// The same, with the request in its answer.
pub fn read_key_line(line: &[u8]) -> Result<Option<KeyLine>, LineFault>
    ensures value { result ≡ key_line line.now }
    ensures sizes { IfOk result (λ asked. IfSome asked HasSizes) }
{
    let mut asked = KeyLine::new();
    if read_key_line_into(line, &mut asked)? {
        Ok(Some(asked))
    } else {
        Ok(None)
    }
}

#[tactic(auto, unfolding(crate::specs::Keys::asked_by), using(text_tables::proofs::Bounded::fits))]
fn read_request(line: &[u8], asked: &mut KeyLine) -> Result<(), LineFault>
    ensures value { asked_into result asked.new ≡ asked_by line.now }
    ensures unchanged { IfErr result (λ fault. asked.new ≡ asked.old) }
{
    match read_keyword(&REQUESTS, line) {
        Err(fault) => Err(fault),
        Ok(request) => {
            let row = request.row();
            match fault_of_words(row.least, row.fields, line) {
                Some(fault) => Err(fault),
                None => {
                    ask(request, line, asked);
                    Ok(())
                }
            }
        }
    }
}

/// Writes what a request asks for with the words of its line.
#[tactic(auto, unfolding(crate::specs::Keys::asked_of))]
fn ask(request: Request, line: &[u8], asked: &mut KeyLine)
    requires { IsValidRow (row_of request) (words line.now) }
    ensures { asked.new ≡ asked_of request (words line.now) }
{
    let first = word_in(line, 1);
    let second = word_in(line, 2);
    *asked = match request {
        Request::Aes => KeyLine::Aes {
            key: array(first),
            block: array(second),
        },
        Request::Cmac => KeyLine::Cmac {
            key: array(first),
            text: octets(second),
        },
        Request::Hmac => KeyLine::Hmac {
            key: octets(first),
            text: octets(second),
        },
        Request::Eax => KeyLine::Eax {
            key: array(first),
            nonce: octets(second),
            header: octets(word_in(line, 3)),
            text: octets(word_in(line, 4)),
        },
        Request::Gpsk => KeyLine::Gpsk {
            suite: ciphersuite_of(first),
            psk: octets(second),
            randp: array(word_in(line, 3)),
            idp: octets(word_in(line, 4)),
            rands: array(word_in(line, 5)),
            ids: octets(word_in(line, 6)),
        },
        Request::Psk => KeyLine::Psk {
            psk: array(first),
            randp: array(second),
        },
        Request::Name => KeyLine::Name { key: octets(first) },
    };
}

/// The ciphersuite that the word spells.
fn ciphersuite_of(word: &[u8]) -> Suite
    ensures { result ≡ ciphersuite_of word.now }
{
    if word == b"1".as_slice() {
        Suite::Cmac
    } else {
        Suite::Hmac
    }
}
