// What client files and mint files are, as bytes.
ghost use Rattle.byte_laws.specs.Files.{ClientFileLaw, MintFileLaw};

/// A client file is read just where it is the number of its transactions, then their spellings, and then its end.
pub fn client_file_law()
    ensures { ClientFileLaw }
{}

/// A mint file is read just where it is the number of its outputs, then they, each of value at least 1, and then its
/// end.
pub fn mint_file_law()
    ensures { MintFileLaw }
{}
