/// A keeper over a store of any make. The store's words are all that it has.
#[derive(Drop)]
pub struct Keeper<S> {
    pub store: S,
}
