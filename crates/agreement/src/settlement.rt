use entries::Reply;

/// What became of a list that was played to a keeper.
#[derive(Drop)]
pub struct Played {
    /// How many of its entries were played.
    pub entries: usize,
    /// What the keeper replied to each booking among them.
    pub replies: Vec<Reply>,
}

/// What became of both lists.
#[derive(Drop)]
pub struct Settlement {
    pub receivables: Played,
    pub treasury: Played,
}

/// Why two lists were not settled.
#[derive(Drop)]
pub enum Unsettled {
    /// One of the stores has fewer words than a keeper can be made over. Nothing was done.
    TooSmall,
    /// There was no memory for the replies. Nothing was done.
    NoMemory,
    /// There was no memory for a row that was read: what was played up to there.
    BrokeOff(Settlement),
}
