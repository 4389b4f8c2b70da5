// What a row has made so far: transactions, files and ledgers.
use cbdc_types::{FullTx, List, NodeId, Output, Record};
use plain_check::{Row, World, journal_of};
use row_records::{Known, Names, Told, Wrong, row};
use std::alloc::Global;

/// What a row has made so far: hashes and transactions, files as the names of their transactions with strokes between them, ledgers with
/// the newest record first, and a world. What stands last of a name holds.
#[derive(Drop)]
pub struct State {
    pub wrong: Option<Wrong>,
    pub known: Known,
    pub files: Names<String>,
    pub ledgers: Names<Vec<Row>>,
    pub world: Option<World>,
    marks: [usize; 2],
}

impl State {
    pub fn empty(alloc: Global) -> State {
        State {
            wrong: None,
            known: Known::empty(alloc),
            files: Names::new(alloc),
            ledgers: Names::new(alloc),
            world: None,
            marks: [0; 2],
        }
    }

    /// What was made so far stands for every row.
    pub fn keep(&mut self) {
        self.known.mark();
        self.marks = [self.files.len(), self.ledgers.len()];
    }

    /// Keeps what stood before the first row alone.
    pub fn forget(&mut self) {
        let [files, ledgers] = self.marks;
        self.known.forget();
        self.files.forget(files);
        self.ledgers.forget(ledgers);
        self.world = None;
    }

    /// The records of the ledger that the word at a place names, the newest first; none where there is no such ledger.
    pub fn rows(&self, words: &[&str], at: usize, told: &mut Told) -> &[Row] {
        match self.ledgers.get(told.word_at(words, at)) {
            Some(rows) => rows.as_slice(),
            None => {
                told.refuse("no such ledger");
                &[]
            }
        }
    }

    /// The journals of the ledger that the word at a place names, by node, the newest record first.
    pub fn journals(&self, words: &[&str], at: usize, told: &mut Told) -> List<List<Record>> {
        let rows = self.rows(words, at, told);
        match told.given(self.known.shape()) {
            Some(shape) => journals_of(shape.node_count(), rows, told),
            None => List::new(told.alloc),
        }
    }

    /// The journal of `LEDGER NODE`, the newest record first.
    pub fn journal(&self, words: &[&str], told: &mut Told) -> List<Record> {
        let alloc = told.alloc;
        let rows = self.rows(words, 0, told);
        let node = NodeId(told.small_at(words, 1));
        let made = journal_of(alloc, node, rows);
        told.made(made).unwrap_or(List::new(alloc))
    }

    /// The record of `NODE RECORD`.
    pub fn row(&self, words: &[&str], told: &mut Told) -> Option<Row> {
        row_of(&self.known, words, told)
    }

    /// The coins that were minted; none where no mint was told.
    pub fn coins(&self, told: &mut Told) -> &[Output] {
        match self.known.mint() {
            Ok(mint) => mint.coins.as_slice(),
            Err(wrong) => {
                told.fail(wrong);
                &[]
            }
        }
    }

    // Appends a copy of a transaction.
    fn put_full(&self, all: &mut List<FullTx>, name: &str, told: &mut Told) {
        match self.known.full(name) {
            Ok(tx) => {
                if let Some(own) = told.made(tx.clone()) {
                    told.made(all.push(own));
                }
            }
            Err(wrong) => told.fail(wrong),
        }
    }

    // Appends the transactions of these names; a stroke among them is passed over.
    fn put_fulls(&self, all: &mut List<FullTx>, names: &str, told: &mut Told) {
        for name in names.split_whitespace() {
            if name != "/" {
                self.put_full(all, name, told);
            }
        }
    }

    // The names in files of a kind, strokes between the files; none where there are no files.
    fn names_of(&self, kind: &str) -> Option<&str> {
        match self.files.get(kind) {
            Some(names) if names.as_str() != "none" => Some(names.as_str()),
            _ => None,
        }
    }

    /// The files of the run.
    pub fn run_files(&self, told: &mut Told) -> List<List<FullTx>> {
        let alloc = told.alloc;
        let mut all = List::new(alloc);
        if let Some(names) = self.names_of("files") {
            for file in names.split('/') {
                let mut txs = List::new(alloc);
                self.put_fulls(&mut txs, file, told);
                told.made(all.push(txs));
            }
        }
        all
    }

    /// All that was submitted.
    pub fn submitted(&self, told: &mut Told) -> List<FullTx> {
        let mut all = List::new(told.alloc);
        if let Some(names) = self.names_of("earlier") {
            self.put_fulls(&mut all, names, told);
        }
        if let Some(names) = self.names_of("files") {
            self.put_fulls(&mut all, names, told);
        }
        all
    }
}

/// The record of `NODE RECORD`.
pub fn row_of(known: &Known, words: &[&str], told: &mut Told) -> Option<Row> {
    let (node, what) = row(known, words, told)?;
    Some(Row {
        node: NodeId(node),
        what,
    })
}

/// The journals of so many nodes, the newest record first.
pub fn journals_of(nodes: u32, rows: &[Row], told: &mut Told) -> List<List<Record>> {
    let alloc = told.alloc;
    let mut all = Vec::new(alloc);
    for node in 0..nodes {
        if let Some(own) = told.made(journal_of(alloc, NodeId(node), rows)) {
            told.push(&mut all, own);
        }
    }
    List::from_vec(all)
}
