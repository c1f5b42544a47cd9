// What each character is to the tokens.
ghost use Rattle.std.specs.Prelude.{◌≡◌, [], ◌∷◌};
ghost use Rattle.query_tokens.specs.Classes.{is_wide_base, is_extending, wide_class, letter_class, mark_class, class_of};
ghost use Rattle.query_tokens.specs.Sets.{is_in, white, letter, letter_or_digit, name_start, variable_char, name_char, local_start, local_char, hex, plus_or_minus, escaped, iri_char, line_char, quoted_char, apostrophed_char};

/// What a character is to the tokens: one class for all characters that no production of the
/// grammar tells apart.
#[derive(Clone, Copy)]
pub enum Class {
    Space,
    LineEnd,
    Hash,
    Less,
    Greater,
    Quote,
    Apostrophe,
    Backslash,
    OpenBrace,
    CloseBrace,
    Caret,
    Unsafe,
    VariableMark,
    Underscore,
    Colon,
    Dot,
    Semicolon,
    Comma,
    Star,
    OpenBracket,
    CloseBracket,
    At,
    Plus,
    Minus,
    Percent,
    Escaped,
    Digit,
    LetterE,
    Hex,
    Letter,
    Base,
    Extending,
    Other,
}

// The sets of classes that the productions name, each as the one before it with more.

macro_rules! letter {
    () => {
        Class::LetterE | Class::Hex | Class::Letter
    };
}

macro_rules! letter_or_digit {
    () => {
        letter!() | Class::Digit
    };
}

macro_rules! name_start {
    () => {
        letter_or_digit!() | Class::Base | Class::Underscore
    };
}

macro_rules! variable_char {
    () => {
        name_start!() | Class::Extending
    };
}

macro_rules! name_char {
    () => {
        variable_char!() | Class::Minus
    };
}

impl Class {
    /// Whether it is this class.
    pub fn is(self, other: Class) -> bool
        ensures { result ≡ is_in (other ∷ []) self }
    {
        self as u8 == other as u8
    }

    /// Whether it is white space.
    pub fn is_white(self) -> bool
        ensures { result ≡ is_in white self }
    {
        matches!(self, Class::Space | Class::LineEnd)
    }

    /// Whether it is an ASCII letter.
    pub fn is_letter(self) -> bool
        ensures { result ≡ is_in letter self }
    {
        matches!(self, letter!())
    }

    /// Whether it is an ASCII letter or digit.
    pub fn is_letter_or_digit(self) -> bool
        ensures { result ≡ is_in letter_or_digit self }
    {
        matches!(self, letter_or_digit!())
    }

    /// Whether it is PN_CHARS_U or a digit.
    pub fn is_name_start(self) -> bool
        ensures { result ≡ is_in name_start self }
    {
        matches!(self, name_start!())
    }

    /// Whether it is PN_CHARS but `-`.
    pub fn is_variable_char(self) -> bool
        ensures { result ≡ is_in variable_char self }
    {
        matches!(self, variable_char!())
    }

    /// Whether it is PN_CHARS.
    pub fn is_name_char(self) -> bool
        ensures { result ≡ is_in name_char self }
    {
        matches!(self, name_char!())
    }

    /// Whether it is PN_CHARS_U, `:` or a digit.
    pub fn is_local_start(self) -> bool
        ensures { result ≡ is_in local_start self }
    {
        matches!(self, name_start!() | Class::Colon)
    }

    /// Whether it is PN_CHARS or `:`.
    pub fn is_local_char(self) -> bool
        ensures { result ≡ is_in local_char self }
    {
        matches!(self, name_char!() | Class::Colon)
    }

    /// Whether it is a hexadecimal digit.
    pub fn is_hex(self) -> bool
        ensures { result ≡ is_in hex self }
    {
        matches!(self, Class::Digit | Class::LetterE | Class::Hex)
    }

    /// Whether it is a sign.
    pub fn is_plus_or_minus(self) -> bool
        ensures { result ≡ is_in plus_or_minus self }
    {
        matches!(self, Class::Plus | Class::Minus)
    }

    /// Whether it is what may follow the backslash in a local part.
    pub fn is_escaped(self) -> bool
        ensures { result ≡ is_in escaped self }
    {
        matches!(
            self,
            Class::Hash
                | Class::Apostrophe
                | Class::VariableMark
                | Class::Underscore
                | Class::Dot
                | Class::Semicolon
                | Class::Comma
                | Class::Star
                | Class::At
                | Class::Plus
                | Class::Minus
                | Class::Percent
                | Class::Escaped
        )
    }

    /// Whether it is what an IRI may hold as it is.
    pub fn is_iri_char(self) -> bool
        ensures { result ≡ is_in iri_char self }
    {
        !matches!(
            self,
            Class::Space
                | Class::LineEnd
                | Class::Less
                | Class::Greater
                | Class::Quote
                | Class::Backslash
                | Class::OpenBrace
                | Class::CloseBrace
                | Class::Caret
                | Class::Unsafe
        )
    }

    /// Whether it is any character but a line end.
    pub fn is_line_char(self) -> bool
        ensures { result ≡ is_in line_char self }
    {
        !matches!(self, Class::LineEnd)
    }

    /// Whether it is what a string in quotation marks may hold as it is.
    pub fn is_quoted_char(self) -> bool
        ensures { result ≡ is_in quoted_char self }
    {
        !matches!(self, Class::LineEnd | Class::Quote | Class::Backslash)
    }

    /// Whether it is what a string in apostrophes may hold as it is.
    pub fn is_apostrophed_char(self) -> bool
        ensures { result ≡ is_in apostrophed_char self }
    {
        !matches!(self, Class::LineEnd | Class::Apostrophe | Class::Backslash)
    }
}

fn is_wide_base(c: char) -> bool
    ensures { result ≡ is_wide_base c }
{
    matches!(c, '\u{00C0}'..='\u{00D6}' | '\u{00D8}'..='\u{00F6}' | '\u{00F8}'..='\u{2FF}' | '\u{370}'..='\u{37D}' | '\u{37F}'..='\u{1FFF}' | '\u{200C}'..='\u{200D}' | '\u{2070}'..='\u{218F}' | '\u{2C00}'..='\u{2FEF}' | '\u{3001}'..='\u{D7FF}' | '\u{F900}'..='\u{FDCF}' | '\u{FDF0}'..='\u{FFFD}' | '\u{10000}'..='\u{EFFFF}')
}

fn is_extending(c: char) -> bool
    ensures { result ≡ is_extending c }
{
    matches!(c, '\u{00B7}' | '\u{300}'..='\u{36F}' | '\u{203F}'..='\u{2040}')
}

fn wide_class(c: char) -> Class
    ensures { result ≡ wide_class c }
{
    if is_wide_base(c) {
        Class::Base
    } else if is_extending(c) {
        Class::Extending
    } else {
        Class::Other
    }
}

#[tactic(auto, unfolding(crate::specs::Classes::letter_class))]
fn letter_class(c: char) -> Class
    ensures { result ≡ letter_class c }
{
    match c {
        'e' | 'E' => Class::LetterE,
        'a'..='f' | 'A'..='F' => Class::Hex,
        _ => Class::Letter,
    }
}

#[tactic(auto, unfolding(crate::specs::Classes::mark_class))]
fn mark_class(c: char) -> Class
    ensures { result ≡ mark_class c }
{
    match c {
        ' ' | '\t' => Class::Space,
        '\n' | '\r' => Class::LineEnd,
        '#' => Class::Hash,
        '<' => Class::Less,
        '>' => Class::Greater,
        '"' => Class::Quote,
        '\'' => Class::Apostrophe,
        '\\' => Class::Backslash,
        '{' => Class::OpenBrace,
        '}' => Class::CloseBrace,
        '^' => Class::Caret,
        '?' | '$' => Class::VariableMark,
        '_' => Class::Underscore,
        ':' => Class::Colon,
        '.' => Class::Dot,
        ';' => Class::Semicolon,
        ',' => Class::Comma,
        '*' => Class::Star,
        '[' => Class::OpenBracket,
        ']' => Class::CloseBracket,
        '@' => Class::At,
        '+' => Class::Plus,
        '-' => Class::Minus,
        '%' => Class::Percent,
        '~' | '!' | '&' | '(' | ')' | '/' | '=' => Class::Escaped,
        '\0'..='\u{001F}' | '|' | '`' => Class::Unsafe,
        _ => Class::Other,
    }
}

/// What a character is to the tokens.
#[tactic(auto, unfolding(crate::specs::Classes::class_of))]
pub fn class_of(c: char) -> Class
    ensures { result ≡ class_of c }
{
    if c.is_ascii_alphabetic() {
        letter_class(c)
    } else if c.is_ascii_digit() {
        Class::Digit
    } else if c >= '\u{0080}' {
        wide_class(c)
    } else {
        mark_class(c)
    }
}
