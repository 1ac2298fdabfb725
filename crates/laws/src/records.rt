// What a merge keeps of each rank.

// How far the delivery of a rank's picture is.
#[derive(Clone, Copy)]
pub enum DeliveryState {
    // No delivery is open, and no picture is closed.
    Idle,
    Open,
    Closed,
}

// A rank's delivery, the number of its next pixel, its round and slot, and the pixels that it has sent.
#[derive(Clone, Copy)]
pub struct RankRecord {
    pub state: DeliveryState,
    pub next: u32,
    pub round: u32,
    pub slot: u32,
    pub sent: u32,
}
