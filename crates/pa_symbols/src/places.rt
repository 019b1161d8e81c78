/// The code that symbols name: the address of its first word, and how many words it has.
#[derive(Clone, Copy, Debug, PartialEq, Eq)]
pub struct TextAt {
    pub address: u64,
    pub words: u32,
}

/// Where the symbol table and the string table begin in the file.
#[derive(Clone, Copy, Debug, PartialEq, Eq)]
pub struct SymbolsAt {
    pub symbols: u64,
    pub strings: u64,
}
