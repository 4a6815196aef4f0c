// The types of the tag, which its definition in specs/ and the code that meets it share. The definition of each call, and what is proved of it, is in
// specs/; there is no code here.
#![tactic(auto)]

// The tag's record (document 01, "Stored and fleeting"): passed in and handed back by value. The pages lie in a lent store beside it.
#[derive(Clone, Copy)]
pub struct Tag {
    // stored: three counters, the failed-authentication count and the originality key, byte 0 first
    pub counters: [u32; 3],
    pub failed: u16,
    pub originality: [u8; 16],
    // fleeting: the state, and the random block of a challenge while CHALLENGED, which stands beside the state: answers 1 and 10 hand any record back as it
    // came (`kept`), and the record for C holds both
    pub state: State,
    pub challenge: [u8; 16],
}

// The state. CHALLENGED keeps the number of the key that was asked for; Unknown is a state that doesn't exist, which a record can hold.
#[derive(Clone, Copy)]
pub enum State {
    Waiting,
    Active,
    Traceable,
    Authenticated,
    Challenged(u8),
    Unknown(u8),
}

// A reply: silence, a nibble, or a number of bytes that stand at the start of the reply buffer. Document 01 asks for this form, so silence is a case and no None.
#[derive(Clone, Copy, PartialEq, Eq)]
pub enum Reply {
    Silence,
    Nibble(u8),
    Bytes(usize),
}

// The memory map (009 Table 6): the number of pages, and the page of each use.
#[derive(Clone, Copy)]
pub struct Map {
    pub pages: u8,
    pub locks: u8,
    pub otp: u8,
    pub pairs: u8,
    pub pairlocks: u8,
    pub cfg0: u8,
    pub cfg1: u8,
    pub keylocks: u8,
    pub key0: u8,
    pub key1: u8,
}

// The commands of the base, each with its code byte (009 Table 20).
#[derive(Clone, Copy)]
pub enum Command {
    Read = 0x30,
    FastRead = 0x3a,
    Write = 0xa2,
    ReadCnt = 0x39,
    IncrCnt = 0xa5,
    Authenticate = 0x1a,
    Proof = 0xaf,
    Halt = 0x50,
}

// The rule that stops a write, in document 02's order; Open where none does. Its place in that order is its discriminant.
// Open is a case and no None, since `RuleOrder`, `FirstRuleTold` and `NoOtherReason` (specs/ReasonClaims.antt) are stated with it.
#[derive(Clone, Copy)]
pub enum Barred {
    Open,
    Auth0,
    RandomId,
    OwnLock,
    PairLock,
    KeyLock,
    ConfigLock,
}

// Four bytes of a page, byte 0 first. Named, and no array: the definitions of Writing.antt and Counters.antt are written with a, b, c and d.
#[derive(Clone, Copy)]
pub struct Quad {
    pub a: u8,
    pub b: u8,
    pub c: u8,
    pub d: u8,
}

// A row of freeze masks: the bits that one block-lock bit freezes in the first and in the second lock byte. Named, as `freeze_rows` is written.
#[derive(Clone, Copy)]
pub struct Masks {
    pub first: u8,
    pub second: u8,
}

// What a frame stores: nothing, one page, one counter or the failed count. No frame stores two of them. An Option around the three others would be no
// plainer: each use would take it apart twice.
#[derive(Clone, Copy)]
pub enum Effect {
    Keep,
    Page(u8, Quad),
    Counter(u8, u32),
    Failed(u16),
}

// What a frame says, before the bytes are read out: the four pages of READ from one on, the pages from one to another, a counter, or a byte and a block.
// Silence is a case, as in `Reply`.
#[derive(Clone, Copy)]
pub enum Say {
    Silence,
    Nibble(u8),
    Window(u8),
    Range(u8, u8),
    Count(u8),
    Block(u8),
}

// What a frame comes to: its number, the rule that stopped a write, what it stores, what it says with the block for `Say::Block`, and the fleeting part
// it leaves. The number is document 01's, 0 for carried out, and no Result: the claims of specs/ read it. The block is no part of `Say::Block`: `said_of` takes
// it beside.
#[derive(Clone, Copy)]
pub struct Decision {
    pub number: u8,
    pub reason: Barred,
    pub effect: Effect,
    pub say: Say,
    pub block: [u8; 16],
    pub state: State,
    pub challenge: [u8; 16],
}
