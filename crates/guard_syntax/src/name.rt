//! Texts and names of a rule file, and the places of its parts.
ghost use Rattle.std.specs.Prelude.{◌≡◌, string_bytes, length};

use std::marker::Model;

/// A text of a rule file, which contracts see as its bytes in UTF-8.
#[derive(Debug, Drop)]
pub struct Text {
    bytes: String,
}

impl Model for Text {
    ghost use Rattle.std.specs.Prelude.{ℕ, List, string_bytes};

    ghost Value = { List ℕ };

    ghost view = { λ t. string_bytes t.bytes };
}

impl Text {
    /// The text of a string.
    pub fn new(bytes: String) -> Text
        ensures { result ≡ string_bytes bytes }
    {
        Text { bytes }
    }

    /// The text itself.
    pub fn as_str(&self) -> &str
        ensures { result.now ≡ self.now }
    {
        &self.bytes
    }

    /// The string that it was made from. It takes no memory.
    pub fn into_string(self) -> String
        ensures { string_bytes result ≡ self }
    {
        self.bytes
    }
}

/// A name with the byte offset where it stands in the rule file.
#[derive(Drop)]
pub struct Name {
    text: Text,
    at: u32,
}

impl Model for Name {
    ghost use Rattle.guard_syntax.specs.Named.{Named, named_code};

    ghost Value = { Named };

    ghost coded = { named_code };

    ghost view = { λ n. record { text = n.text; at = n.at } };
}

impl Name {
    /// The name of a text at a byte offset.
    pub fn new(text: Text, at: u32) -> Name
        ensures { result ≡ record { text = text; at = at } }
    {
        Name { text, at }
    }

    /// The name itself.
    pub fn as_str(&self) -> &str
        ensures { result.now ≡ self.now.text }
    {
        self.text.as_str()
    }

    /// The byte offset where it stands: that of its first byte, of a variable that of its `%`.
    pub fn at(&self) -> u32
        ensures { result ≡ self.now.at }
    {
        self.at
    }

    /// The text without its place. It takes no memory.
    pub fn into_text(self) -> Text
        ensures { result ≡ self.text }
    {
        self.text
    }
}

/// Names in order, which contracts see as a list.
#[derive(Drop)]
pub struct Names {
    items: Vec<Name>,
}

impl Model for Names {
    ghost use Rattle.std.specs.Prelude.{List};
    ghost use Rattle.std.specs.Coded.{coded_list};
    ghost use Rattle.guard_syntax.specs.Named.{Named, named_code};

    ghost Value = { List Named };

    ghost coded = { coded_list named_code };

    ghost view = { λ n. n.items.items };
}

impl Names {
    /// The names of a vector.
    pub fn new(items: Vec<Name>) -> Names
        ensures { result ≡ items.items }
    {
        Names { items }
    }

    /// The names themselves.
    pub fn as_slice(&self) -> &[Name]
        ensures { result.now ≡ self.now }
    {
        &self.items
    }

    /// The vector that they were made from. It takes no memory.
    pub fn into_vec(self) -> Vec<Name>
        ensures { result.items ≡ self }
    {
        self.items
    }
}

/// The byte offset of each site of a rule file, by its number. Contracts see a list.
#[derive(Drop)]
pub struct Places {
    items: Vec<u32>,
}

impl Model for Places {
    ghost use Rattle.std.specs.Prelude.{ℕ, List};

    ghost Value = { List ℕ };

    ghost view = { λ p. p.items.items };
}

impl Places {
    /// The places of a vector.
    pub fn new(items: Vec<u32>) -> Places
        ensures { result ≡ items.items }
    {
        Places { items }
    }

    /// The places themselves.
    pub fn as_slice(&self) -> &[u32]
        ensures { result.now ≡ self.now }
    {
        &self.items
    }

    /// The vector that they were made from. It takes no memory.
    pub fn into_vec(self) -> Vec<u32>
        ensures { result.items ≡ self }
    {
        self.items
    }
}
