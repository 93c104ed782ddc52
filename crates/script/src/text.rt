// A line is cut into words.
ghost use Rattle.std.specs.Prelude.{◌≡◌, ◌≤◌, length};
ghost use Rattle.std.specs.List.{prefix_len};
ghost use Rattle.script.specs.Text.{blank, in_word, skipped, first_word, after_word, word_at};

// Blanks are spaces and tabs.
fn is_blank(octet: u8) -> bool
    ensures { result ≡ blank octet }
{
    matches!(octet, b' ' | b'\t')
}

// How many blanks stand at the front of a line.
fn blanks_before(line: &[u8]) -> usize
    ensures count { result ≡ prefix_len blank line.now }
    ensures within { result ≤ length line.now }
{
    line.iter().take_while(|octet| is_blank(**octet)).count()
}

// How many octets the word at the front of a line has.
fn word_size(line: &[u8]) -> usize
    ensures count { result ≡ prefix_len in_word line.now }
    ensures within { result ≤ length line.now }
{
    line.iter().take_while(|octet| !is_blank(**octet)).count()
}

// A line without the blanks at its front.
fn skip_blanks(line: &[u8]) -> &[u8]
    ensures { result.now ≡ skipped line.now }
{
    line.split_at(blanks_before(line)).1
}

// The first word of a line, and what follows it.
fn split_word(line: &[u8]) -> (&[u8], &[u8])
    ensures word { result.0.now ≡ first_word line.now }
    ensures after { result.1.now ≡ after_word line.now }
{
    let begun = skip_blanks(line);
    begun.split_at(word_size(begun))
}

// The word of a line with a number, counted from 0; no octets where the line has fewer words.
#[tactic(auto, using(crate::proofs::Cuts::one_word))]
pub fn word(line: &[u8], number: usize) -> &[u8]
    ensures { result.now ≡ word_at number line.now }
{
    let mut rest = line;
    for _i in 0..number {
        rest = split_word(rest).1;
    }
    split_word(rest).0
}
