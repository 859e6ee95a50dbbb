// The three symbols for C: each calls the function of `vote` of its name, and promises what that one
// promises. Nothing else is exported. A crate is a library or an archive for C, so they stand twice.
#![tactic(auto)]

ghost use Rattle.std.specs.Prelude.{◌≡◌};
ghost use Rattle.rules.specs.Record.{start_number_from_c, record_after_start};
ghost use Rattle.rules.specs.Record.{tick_number_from_c, record_after_tick, tick_index_from_c};
ghost use Rattle.rules.specs.Record.{send_number_from_c, buffer_after_send};

// Starts a head with its proposal, in a record of any former contents; the number is given back.
#[unsafe(no_mangle)]
pub extern "C" fn vote_start(head_record: &mut [u8], n: u32, own: u32, proposal: u32) -> u32
    ensures value { result ≡ start_number_from_c head_record.old n own proposal }
    ensures head_record_after { head_record.new ≡ record_after_start head_record.old n own proposal }
{
    vote::vote_start(head_record, n, own, proposal)
}

// Ticks the record's head with a list of ballots and a coin; the number is given back, and the index of
// the first offending ballot is written.
#[unsafe(no_mangle)]
pub extern "C" fn vote_tick(
    head_record: &mut [u8],
    ballots: &[u8],
    coin: u32,
    index: &mut usize,
) -> u32
    ensures value { result ≡ tick_number_from_c head_record.old ballots.now coin }
    ensures head_record_after { head_record.new ≡ record_after_tick head_record.old ballots.now coin }
    ensures index_after { index.new ≡ tick_index_from_c head_record.old ballots.now coin }
{
    vote::vote_tick(head_record, ballots, coin, index)
}

// Writes the ballot of the record's head into a buffer of five bytes; the number is given back.
#[unsafe(no_mangle)]
pub extern "C" fn vote_ballot(head_record: &[u8], ballot: &mut [u8]) -> u32
    ensures value { result ≡ send_number_from_c head_record.now ballot.old }
    ensures ballot_after { ballot.new ≡ buffer_after_send head_record.now ballot.old }
{
    vote::vote_ballot(head_record, ballot)
}
