ghost use Rattle.std.specs.Prelude.{◌≡◌, ◌<◌, ◌^◌, if◌then◌else◌, ◌==◌};
ghost use Rattle.sql_words.specs.Division as division;
ghost use Rattle.sql_words.specs.Scanning as spec;

/// How much of BEGIN, CASE or END a run of letters spells so far, in any case of letters.
#[derive(Clone, Copy, Debug, PartialEq, Eq)]
pub enum Spelling {
    Nothing,
    B,
    Be,
    Beg,
    Begi,
    Begin,
    C,
    Ca,
    Cas,
    Case,
    E,
    En,
    End,
    /// A run that is none of the three words.
    Other,
}

/// The part of a stream that is open.
#[derive(Clone, Copy, Debug, PartialEq, Eq)]
pub enum OpenPart {
    /// None: the next byte begins a part.
    Between,
    Run(Spelling),
    /// A minus sign, with which a simple comment may begin.
    MinusSign,
    /// A solidus, with which a bracketed comment may begin.
    Solidus,
    Literal,
    QuotedName,
    SimpleComment,
    BracketedComment,
    /// A bracketed comment behind an asterisk, with which its end may begin.
    Asterisk,
}

/// What stands open behind the bytes of a statement.
#[derive(Clone, Copy, Debug, PartialEq, Eq)]
pub struct Scan {
    pub open_part: OpenPart,
    /// How many BEGIN and CASE are open, the open part aside.
    pub level: usize,
    /// Whether all parts are blank, the open part aside.
    pub blank: bool,
}

#[tactic(auto, unfolding(crate::specs::Division::is_run_byte))]
pub fn is_run_byte(byte: u8) -> bool
    ensures { result ≡ division.is_run_byte byte }
{
    byte.is_ascii_alphanumeric() || byte == b'_'
}

#[tactic(auto, unfolding(crate::specs::Division::is_space))]
pub fn is_space(byte: u8) -> bool
    ensures { result ≡ division.is_space byte }
{
    matches!(byte, b' ' | b'\t' | b'\n' | 11 | 12 | b'\r')
}

// The spelling with the wanted letter more.
fn next_letter(letter: u8, wanted: u8, next: Spelling) -> Spelling
    ensures { result ≡ spec.next_letter letter wanted next }
{
    if letter == wanted {
        next
    } else {
        Spelling::Other
    }
}

fn first_letter(letter: u8) -> Spelling
    ensures { result ≡ spec.first_letter letter }
{
    match letter {
        b'B' => Spelling::B,
        b'C' => Spelling::C,
        _ => next_letter(letter, b'E', Spelling::E),
    }
}

impl Spelling {
    // The spelling with a byte more.
    #[tactic(auto, unfolding(crate::specs::Scanning::spelling_after))]
    fn after(self, byte: u8) -> Spelling
        ensures { result ≡ spec.spelling_after self byte }
    {
        let letter = byte.to_ascii_uppercase();
        match self {
            Spelling::Nothing => first_letter(letter),
            Spelling::B => next_letter(letter, b'E', Spelling::Be),
            Spelling::Be => next_letter(letter, b'G', Spelling::Beg),
            Spelling::Beg => next_letter(letter, b'I', Spelling::Begi),
            Spelling::Begi => next_letter(letter, b'N', Spelling::Begin),
            Spelling::C => next_letter(letter, b'A', Spelling::Ca),
            Spelling::Ca => next_letter(letter, b'S', Spelling::Cas),
            Spelling::Cas => next_letter(letter, b'E', Spelling::Case),
            Spelling::E => next_letter(letter, b'N', Spelling::En),
            Spelling::En => next_letter(letter, b'D', Spelling::End),
            Spelling::Begin => Spelling::Other,
            Spelling::Case => Spelling::Other,
            Spelling::End => Spelling::Other,
            Spelling::Other => Spelling::Other,
        }
    }

    // The level behind a run that spells this. END takes one where there is one.
    fn level(self, level: usize) -> usize
        requires { level < 2 ^ 63 }
        ensures { result ≡ spec.spelled_level level self }
    {
        match self {
            Spelling::Begin => level + 1,
            Spelling::Case => level + 1,
            Spelling::End => level.saturating_sub(1),
            _ => level,
        }
    }
}

impl OpenPart {
    // Whether a byte begins another part than this one.
    #[tactic(auto, unfolding(crate::specs::Scanning::begins))]
    fn begins(self, byte: u8) -> bool
        ensures { result ≡ spec.begins self byte }
    {
        match self {
            OpenPart::Between => true,
            OpenPart::Run(_) => !is_run_byte(byte),
            OpenPart::MinusSign => byte != b'-',
            OpenPart::Solidus => byte != b'*',
            _ => false,
        }
    }

    // The part that a byte begins.
    #[tactic(auto, unfolding(crate::specs::Scanning::begun))]
    fn begun(byte: u8) -> OpenPart
        ensures { result ≡ spec.begun byte }
    {
        match byte {
            b'\'' => OpenPart::Literal,
            b'"' => OpenPart::QuotedName,
            b'-' => OpenPart::MinusSign,
            b'/' => OpenPart::Solidus,
            _ => {
                if is_run_byte(byte) {
                    OpenPart::Run(Spelling::Nothing.after(byte))
                } else {
                    OpenPart::Between
                }
            }
        }
    }

    // This part, or none, behind its closing byte.
    fn until(self, byte: u8, closing: u8) -> OpenPart
        ensures { result ≡ (if byte == closing then OpenPart.Between else self) }
    {
        if byte == closing {
            OpenPart::Between
        } else {
            self
        }
    }

    // This part with a byte more.
    #[tactic(auto, unfolding(crate::specs::Scanning::continued))]
    fn continued(self, byte: u8) -> OpenPart
        ensures { result ≡ spec.continued self byte }
    {
        match self {
            OpenPart::Between => OpenPart::Between,
            OpenPart::Run(spelling) => OpenPart::Run(spelling.after(byte)),
            OpenPart::MinusSign => OpenPart::SimpleComment,
            OpenPart::Solidus => OpenPart::BracketedComment,
            OpenPart::Literal => OpenPart::Literal.until(byte, b'\''),
            OpenPart::QuotedName => OpenPart::QuotedName.until(byte, b'"'),
            OpenPart::SimpleComment => OpenPart::SimpleComment.until(byte, b'\n'),
            OpenPart::BracketedComment => in_brackets(byte),
            OpenPart::Asterisk => {
                if byte == b'/' {
                    OpenPart::Between
                } else {
                    in_brackets(byte)
                }
            }
        }
    }

    // The level with the run that is open.
    fn level(self, level: usize) -> usize
        requires { level < 2 ^ 63 }
        ensures { result ≡ spec.level_with level self }
    {
        match self {
            OpenPart::Run(spelling) => spelling.level(level),
            _ => level,
        }
    }

    // Whether this part, as it is, is a blank one.
    fn is_blank(self) -> bool
        ensures { result ≡ spec.is_blank_open self }
    {
        matches!(self, OpenPart::Between | OpenPart::SimpleComment)
    }
}

// A bracketed comment behind this byte.
fn in_brackets(byte: u8) -> OpenPart
    ensures { result ≡ (if byte == 42 then OpenPart.Asterisk else OpenPart.BracketedComment) }
{
    if byte == b'*' {
        OpenPart::Asterisk
    } else {
        OpenPart::BracketedComment
    }
}

// Whether a part that begins with this byte may be white space or a comment.
#[tactic(auto, unfolding(crate::specs::Scanning::may_be_blank))]
fn may_be_blank(byte: u8) -> bool
    ensures { result ≡ spec.may_be_blank byte }
{
    is_space(byte) || byte == b'-' || byte == b'/'
}

impl Scan {
    /// What stands open at the beginning of a statement.
    pub fn start() -> Scan
        ensures { result ≡ spec.start }
    {
        Scan {
            open_part: OpenPart::Between,
            level: 0,
            blank: true,
        }
    }

    /// Whether this byte is a semicolon that ends the statement.
    pub fn ends(self, byte: u8) -> bool
        requires { self.level < 2 ^ 63 }
        ensures { result ≡ spec.ends_scan self byte }
    {
        byte == b';' && self.open_part.begins(byte) && self.open_part.level(self.level) == 0
    }

    /// What stands open behind a byte more.
    pub fn after(self, byte: u8) -> Scan
        requires { self.level < 2 ^ 63 }
        ensures { result ≡ spec.scan_after self byte }
    {
        if self.open_part.begins(byte) {
            Scan {
                open_part: OpenPart::begun(byte),
                level: self.open_part.level(self.level),
                blank: self.is_blank() && may_be_blank(byte),
            }
        } else {
            Scan {
                open_part: self.open_part.continued(byte),
                ..self
            }
        }
    }

    /// Whether all that came is white space and comments.
    pub fn is_blank(self) -> bool
        ensures { result ≡ spec.is_blank_scan self }
    {
        self.blank && self.open_part.is_blank()
    }
}
