//! The definitions of the ledger as a plain program: slow functions whose contracts are the definitions, word for word, and which compute them on
//! small inputs. Journals and histories are lists whose newest record comes first.
//!
//! - The running program uses none of it. Here are the definitions of `cbdc_model`, and whether submissions are clean, and journals kept and finished
//!   alike. What a run adds to the journals is here wave after wave (all journals that those at exit may have been once are tried). Also the whole
//!   ledger as a value, with what may happen to its nodes in any order, and what each command prints.
//! - Tested in `journal_rows`, on worked examples whose numbers come from the rules of these documents and not from the program. Ids, compact forms,
//!   shard numbers, stamps, what is in the grammar and a sentinel's first refusal these rows take from the program itself (`shard_ranges`, `audit`,
//!   `record_grammar`, `sentinel`), whose contracts are the definitions. Proper is what a sentinel lets pass to which all witnesses are good: by a
//!   law of `run_laws`, just what the definition says.
//! - `World::step`, `World::run`: Tested in `journal_rows` (`worlds.rows`).
//! - That each command prints the text computed here is a promise of `process`; of `gen` these are the numbers that end a run and those of an audit.
//!   What is computed of texts is tested in `journal_rows` and `piece_rows`.
//! - Open: no test shows submissions that are not clean: that would be a collision of SHA-256. That a text is given wherever one belongs to the
//!   journals.
//! - Tested in `journal_rows` (`plain.rows`, `shards.rows`): `is_clean`, `history_of`, `is_kept_ledger`, `is_alike` and `are_alike`.
#![tactic(auto)]

mod adding;
mod agreeing;
mod alikes;
mod answers;
mod books;
mod caused;
mod causes;
mod choices;
mod clean;
mod comparing;
mod copying;
mod counting;
mod deciding;
mod event_causes;
mod events;
mod following;
mod handed;
mod history;
mod kept;
mod ledgers;
mod line_unspent;
mod nexts;
mod nodes;
mod outcomes;
mod page;
mod parts;
mod plans;
mod prepares;
mod proper;
mod recovering;
mod refusals;
mod replying;
mod reporting;
mod room;
mod running;
mod stages;
mod standing;
mod status;
mod telling;
mod turns;
mod unspent;
mod waves;
mod world;
mod worlds;

pub use adding::adds;
pub use adding::are_idle;
pub use adding::has_grown;
pub use agreeing::agree;
pub use agreeing::coins_agree;
pub use alikes::are_alike;
pub use alikes::count_of;
pub use alikes::is_alike;
pub use books::coins_of;
pub use books::count_of_book;
pub use books::fold_of;
pub use books::genesis_book;
pub use books::minted_coins;
pub use books::output_at;
pub use books::put_all;
pub use books::spend;
pub use books::take_all;
pub use books::take_out;
pub use books::value_of;
pub use caused::is_caused;
pub use causes::all_have;
pub use causes::home_journal;
pub use causes::is_stamped;
pub use causes::last_of;
pub use choices::choices_of;
pub use clean::is_clean;
pub use comparing::misfit;
pub use comparing::other_decisions;
pub use comparing::other_part;
pub use copying::copy_of_compact;
pub use copying::copy_of_entry;
pub use copying::copy_of_full;
pub use copying::copy_of_record;
pub use copying::copy_of_records;
pub use copying::copy_of_txs;
pub use copying::entries_in;
pub use copying::replies_in;
pub use copying::with_front;
pub use counting::summary_of;
pub use deciding::Search;
pub use deciding::added;
pub use deciding::batches_of;
pub use deciding::decided_at;
pub use events::Event;
pub use events::ShardCall;
pub use following::fits_replies;
pub use following::follows;
pub use following::is_after;
pub use handed::committed_of;
pub use handed::first_with;
pub use history::Row;
pub use history::committed_compact;
pub use history::goes_above;
pub use history::is_ordered;
pub use history::journal_of;
pub use kept::first_rows;
pub use kept::is_kept;
pub use ledgers::history_of;
pub use ledgers::is_history;
pub use ledgers::is_kept_ledger;
pub use line_unspent::unspent_count;
pub use nexts::finished_decisions;
pub use nexts::is_idle;
pub use nexts::next_finish;
pub use nexts::next_forget;
pub use nexts::next_lock;
pub use nexts::next_stamp;
pub use nexts::stamp_of_kind;
pub use outcomes::journal_at;
pub use outcomes::outcome_of;
pub use outcomes::outcomes_by_locks;
pub use outcomes::reply_at;
pub use outcomes::won_at;
pub use page::Page;
pub use plans::LockPlan;
pub use plans::StampPlan;
pub use prepares::is_prepared;
pub use prepares::pieces_of;
pub use prepares::prepared_of;
pub use proper::is_proper;
pub use proper::is_proper_compact;
pub use recovering::recover_text;
pub use recovering::resumed_count;
pub use refusals::Listed;
pub use refusals::first_refusal_of;
pub use replying::refusal;
pub use replying::replies_of;
pub use replying::reply_to;
pub use reporting::reports_of;
pub use room::kept_room;
pub use room::lane_room;
pub use room::need_of;
pub use room::size_of;
pub use room::used_of;
pub use running::run_text;
pub use same_records::Phase;
pub use same_records::Slot;
pub use same_records::batch_of;
pub use same_records::is_of;
pub use same_records::kind_of;
pub use same_records::last_stamp;
pub use same_records::lock_of;
pub use same_records::outcomes_of;
pub use same_records::record_of;
pub use same_records::slot_of;
pub use same_records::slot_stamp;
pub use same_records::stamp_of;
pub use same_records::tells_lane;
pub use same_records::txs_of;
pub use stages::Stage;
pub use stages::are_stages;
pub use stages::is_file_run;
pub use stages::is_resumed;
pub use standing::is_caused_at;
pub use standing::journals_of;
pub use status::finished_status;
pub use status::has;
pub use status::is_held_input;
pub use status::is_made_output;
pub use status::is_returned_input;
pub use status::is_taken_input;
pub use status::status_of;
pub use telling::fault_line;
pub use telling::init_text;
pub use telling::status_text;
pub use telling::verdict_text;
pub use unspent::unspent_of;
pub use waves::are_waves;
pub use world::World;
pub use worlds::Node;
pub use worlds::are_lanes_idle;
pub use worlds::is_recovered;
pub use worlds::journal_in;
