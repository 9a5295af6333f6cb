//! Runs of one cache line in words, and which flits of them are refused.
//!
//! A row has how it is judged (`hidden` and `listed` by what is known of stores, `home` as it is logged there, `begun` in the
//! middle, `tails` from each of its flits on), a name, and its flits, with `;` between them: `0 ReadShared` of agent 0's cache,
//! `>0 CompData_SC old` of the home to that agent. Each is accepted, but for one with `! REASON`, which is refused, or with
//! `? CAUSE`, from which on the line isn't judged. `owner` is agent 0's read of the old words, alone.

/// All rows.
pub(crate) const ROWS: [&[&str]; 11] = [
    &ACCESSES, &ARRIVALS, &ARRIVING, &BEGUN, &KINDS, &LISTED, &READS, &TAILS, &THROWN, &TRACES,
    &WORDS,
];

/// Loads and stores of processors, by what is known of their copies.
const ACCESSES: [&str; 21] = [
    "hidden a_load_without_a_copy_is_a_fault 0 ReadShared ; 0 Load(7) ! NotSent",
    "hidden a_store_to_a_shared_copy_is_a_fault 0 ReadShared ; >0 CompData_SC old ; 0 CompAck ; 0 Load(7) ; 0 Store(9) ! NotSent",
    "hidden a_copy_that_was_loaded_is_given_up 0 ReadShared ; >0 CompData_SC old ; 0 CompAck ; 0 Load(7) ; 0 Evict ; >0 Comp_I ; 0 Load(7) ! NotSent",
    "hidden a_store_before_the_acknowledgement_is_taken 0 ReadUnique ; >0 CompData_UC old ; 0 Load(7) ; 0 Store(9) ; 0 CompAck ; 1 ReadShared ; >0 SnpShared ; 0 Load(7) ; 0 SnpResp_SC ! NotSent",
    "hidden a_store_while_a_request_is_open_is_a_fault owner ; 0 WriteEvictFull ; 0 Load(7) ; 0 Store(9) ! NotSent",
    "hidden a_store_tells_that_a_retried_request_is_cancelled owner ; 0 WriteEvictFull ; >0 RetryAck ; 0 Store(9) ; 0 WriteEvictFull again ! NotSent",
    "hidden a_load_tells_of_no_cancel owner ; 0 WriteEvictFull ; >0 RetryAck ; 0 Load(7) ; 0 WriteEvictFull again",
    "hidden words_behind_a_store_are_others owner ; 0 Store(9) ; 1 ReadUnique ; >0 SnpUnique ; 0 SnpRespData_I_PD new ; >1 CompData_UC new",
    "hidden a_copy_that_was_stored_to_is_not_dropped owner ; 0 Store(9) ; 1 ReadUnique ; >0 SnpUnique ; 0 SnpResp_I ! NotSent",
    "hidden a_load_of_a_line_without_data_tells_of_a_whole_write 0 CleanUnique ; >0 Comp_UC ; 0 CompAck ; 0 Load(7) ; 0 WriteBackFull ; >0 RetryAck ; 0 Evict ! NotSent",
    "hidden a_line_without_data_is_not_loaded_before_the_acknowledgement 0 CleanUnique ; >0 Comp_UC ; 0 Load(7) ! NotSent",
    "hidden a_shared_copy_that_was_loaded_is_upgraded_with_its_data 0 ReadShared ; >0 CompData_SC old ; 0 CompAck ; 0 CleanUnique ; 0 Load(7) ; >0 Comp_UC ; 0 CompAck ; 0 WriteEvictFull",
    "hidden a_load_tells_not_that_nothing_was_stored owner ; 1 ReadOnce ; 0 Load(7) ; >1 CompData_I old ! NoMoment",
    "hidden a_store_ends_what_was_told_of_the_home owner ; >0 SnpOnce ; 0 SnpResp_UC ; 0 Store(9) ; 1 ReadOnce ; >1 CompData_I old ! NoMoment",
    "hidden a_stale_word_in_a_shared_copy_is_a_fault 0 ReadShared ; >0 CompData_SC old ; 0 CompAck ; 0 Load(9) ! OtherWords",
    "hidden another_word_in_a_unique_copy_was_stored owner ; 0 Load(7) ; 0 Load(9) ; 1 ReadUnique ; >0 SnpUnique ; 0 SnpRespData_I_PD new",
    "hidden another_word_before_the_acknowledgement_counts_behind_it 0 ReadUnique ; >0 CompData_UC old ; 0 Load(9)",
    "hidden another_word_while_a_request_is_open_is_a_fault owner ; 0 WriteEvictFull ; 0 Load(7) ; 0 Load(9) ! OtherWords",
    "hidden another_word_tells_of_a_store owner ; 0 Load(9) ; 1 ReadUnique ; >0 SnpUnique ; 0 SnpResp_I ! NotSent",
    "hidden another_word_tells_that_a_retried_request_is_cancelled owner ; 0 WriteEvictFull ; >0 RetryAck ; 0 Load(9) ; 0 WriteEvictFull again ! NotSent",
    "hidden another_word_before_the_acknowledgement_tells_of_a_store 0 ReadUnique ; >0 CompData_UC old ; 0 Load(9) ; 0 CompAck ; 0 WriteEvictFull ! NotSent",
];

/// Logs that are taken at the home.
const ARRIVALS: [&str; 27] = [
    "home a_request_ahead_of_an_acknowledgement_is_taken owner ; 1 ReadUnique ; >0 SnpUnique ; 0 SnpResp_I ; >1 CompData_UC old ; 1 WriteBackFull ; >1 CompDBIDResp ; 1 CompAck ; 1 CopyBackWrData_UD_PD new",
    "home nothing_is_snooped_ahead_of_an_acknowledgement owner ; 1 ReadUnique ; >0 SnpUnique ; 0 SnpResp_I ; >1 CompData_UC old ; 1 Evict ; >1 Comp_I ; >1 SnpUnique ! Busy",
    "home an_acknowledgement_comes_once owner ; 0 CompAck ! NotSent",
    "home a_write_back_behind_the_answer_that_took_its_data_is_taken owner ; 1 ReadShared ; >0 SnpShared ; 0 SnpRespData_SC_PD new ; 0 WriteBackFull ; >0 CompDBIDResp ; 0 CopyBackWrData_SC new",
    "home its_data_are_not_dirty owner ; 1 ReadShared ; >0 SnpShared ; 0 SnpRespData_SC_PD new ; 0 WriteBackFull ; >0 CompDBIDResp ; 0 CopyBackWrData_UD_PD new ! NotSent",
    "home a_write_back_behind_a_clean_answer_is_a_fault owner ; 1 ReadShared ; >0 SnpShared ; 0 SnpResp_SC ; 0 WriteBackFull ! NotSent",
    "home an_evict_is_completed_ahead_of_an_answer owner ; >0 SnpUnique ; 0 Evict ; >0 Comp_I ; 0 SnpResp_I",
    "home an_evict_leaves_no_dirty_answer owner ; >0 SnpUnique ; 0 Evict ; 0 SnpRespData_I_PD new ! NotSent",
    "home a_write_back_that_crosses_a_snoop_is_taken owner ; >0 SnpUnique ; 0 WriteBackFull ; 0 SnpRespData_I_PD new ; >0 CompDBIDResp ; 0 CopyBackWrData_I",
    "home a_write_back_may_be_of_a_later_store owner ; >0 SnpCleanShared ; 0 SnpRespData_UC_PD new ; 0 WriteBackFull ; >0 CompDBIDResp ; 0 CopyBackWrData_UD_PD old",
    "home or_of_the_words_that_were_answered owner ; >0 SnpCleanShared ; 0 SnpRespData_UC_PD new ; 0 WriteBackFull ; >0 CompDBIDResp ; 0 CopyBackWrData_UC new",
    "home and_then_of_no_others owner ; >0 SnpCleanShared ; 0 SnpRespData_UC_PD new ; 0 WriteBackFull ; >0 CompDBIDResp ; 0 CopyBackWrData_UC old ! OtherWords",
    "home a_read_ahead_of_write_data_waits_for_them owner ; 0 WriteBackFull ; >0 CompDBIDResp ; 0 ReadShared ; 0 CopyBackWrData_UD_PD new ; >0 CompData_UC old ! OtherWords",
    "home its_completion_ahead_of_them_sets_the_line_aside owner ; 0 WriteBackFull ; >0 CompDBIDResp ; 0 ReadShared ; >0 CompData_UC old ? EarlierData",
    "home an_evict_ahead_of_write_data_is_a_fault owner ; 0 WriteBackFull ; >0 CompDBIDResp ; 0 Evict ! NotSent",
    "home a_copy_beside_one_that_may_be_given_up_sets_the_line_aside owner ; 1 ReadUnique ; >0 SnpUnique ; 0 Evict ; >1 CompData_UC old ? HeldRequest",
    "home a_copy_beside_one_that_is_written_back_is_a_fault owner ; 1 ReadUnique ; >0 SnpUnique ; 0 WriteBackFull ; >1 CompData_UC old ! OtherCopy",
    "home a_copy_beside_one_that_is_held_is_a_fault owner ; 1 ReadUnique ; >0 SnpUnique ; >1 CompData_UC old ! OtherCopy",
    "home an_answer_that_may_be_older_is_no_moment_of_a_read_once owner ; >0 SnpOnce ; 1 ReadOnce ; 0 SnpRespData_UD new ; >1 CompData_I new ! NoMoment",
    "home an_answer_that_was_asked_for_later_is_one owner ; 1 ReadOnce ; >0 SnpOnce ; 0 SnpRespData_UD new ; >1 CompData_I new",
    "home behind_a_completion_there_may_be_a_store owner ; 0 Evict ; >0 Comp_I ; 0 ReadUnique ; >0 CompData_UC old ; 1 ReadOnce ; >1 CompData_I old ! NoMoment",
    "home a_request_that_is_retried_while_it_is_held_sets_the_line_aside owner ; >0 SnpShared ; 0 WriteBackFull ; >0 RetryAck ; 0 SnpRespData_SC_PD new ? Retried",
    "home two_requests_ahead_of_an_answer_set_the_line_aside owner ; >0 SnpUnique ; 0 Evict ; >0 Comp_I ; 0 ReadShared ? TwoRequests",
    "home an_evict_of_what_was_thrown_away_sets_the_line_aside owner ; 1 MakeUnique ; >0 SnpMakeInvalid ; 0 SnpResp_I ; 0 Evict ? Thrown",
    "home an_evict_of_a_copy_that_was_unsure_sets_the_line_aside owner ; >0 SnpOnce ; 0 SnpRespData_UC_PD new ; 0 WriteBackFull ; >0 RetryAck ; 1 MakeUnique ; >0 SnpMakeInvalid ; 0 SnpResp_I ; 0 Evict ? Thrown",
    "home a_load_is_not_seen_at_the_home owner ; 0 Load(7) ! NotJudged",
    "home an_agent_beyond_the_last_is_refused owner ; 32 ReadShared ! NoAgent",
];

/// Lines of which nothing is known at first.
const BEGUN: [&str; 6] = [
    "begun a_sharer_that_an_answer_has_told_of_is_not_forgotten >0 SnpShared ; 0 SnpResp_SC ; 1 ReadUnique ; >1 CompData_UC old ! OtherCopy",
    "begun nobody_else_has_a_copy_behind_a_unique_one 1 ReadUnique ; >1 CompData_UC old ; 1 CompAck ; 0 Evict ! NotSent",
    "begun a_unique_copy_that_may_be_dirty_is_written_back owner ; 0 WriteBackFull ; >0 CompDBIDResp ; 0 CopyBackWrData_UD_PD new ; 1 ReadShared ; >1 CompData_SC old ! OtherWords",
    "begun a_load_of_a_copy_that_is_known_has_its_word 0 Load(9) ; 0 Load(7) ; 0 ReadShared ; >0 CompData_SC old ; 0 CompAck ; 0 Load(7) ; 0 Load(9) ! OtherWords",
    "begun flits_from_before_are_taken_until_a_request 0 CompAck ; >0 RetryAck ; 0 SnpResp_I ; 0 ReadUnique again ; >0 CompData_UD_PD new ; 0 CompAck ; 0 CompAck ! NotSent",
    "begun a_snoop_that_needs_a_request_from_before_is_taken >0 SnpMakeInvalid ; 0 SnpRespData_I_PD new ! NotSent",
];

/// Kinds of request, snoops and answers beside the profile's.
const KINDS: [&str; 20] = [
    "hidden a_copy_stays_unique_at_a_snoop_that_lets_it owner ; >0 SnpOnce ; 0 SnpResp_UC ; 0 WriteEvictFull ; >0 CompDBIDResp ; 0 CopyBackWrData_UC old",
    "hidden a_copy_stays_unique_at_no_snoop_for_a_shared_one owner ; >0 SnpShared ; 0 SnpResp_UC ! NotSent",
    "hidden dirty_data_are_shown_and_then_cleaned owner ; >0 SnpOnce ; 0 SnpRespData_UD new ; >0 SnpCleanShared ; 0 SnpRespData_UC_PD new ; 1 ReadClean ; >1 CompData_SC new ! OtherCopy",
    "hidden an_owner_that_is_cleaned_stays_no_owner owner ; >0 SnpCleanShared ; 0 SnpRespData_SD new ! NotSent",
    "hidden a_clean_read_takes_no_duty 0 ReadClean ; >0 CompData_UD_PD old ! NotDue",
    "hidden a_line_is_cleaned_once_no_copy_is_left owner ; 1 CleanInvalid ; >0 SnpCleanInvalid ; 0 SnpRespData_I_PD new ; >1 Comp_I ; 1 ReadShared ; >1 CompData_UC new",
    "hidden a_copy_that_is_left_at_a_cleaning_is_a_fault owner ; 1 CleanInvalid ; >1 Comp_I ! OtherCopy",
    "hidden a_line_that_is_written_whole_is_read_so owner ; 1 WriteUniqueFull ; >0 SnpUnique ; 0 SnpResp_I ; >1 CompDBIDResp ; 1 NonCopyBackWrData new ; 0 ReadShared ; >0 CompData_UD_PD new",
    "hidden words_from_before_a_whole_write_are_a_fault owner ; 1 WriteUniqueFull ; >0 SnpUnique ; 0 SnpResp_I ; >1 CompDBIDResp ; 1 NonCopyBackWrData new ; 0 ReadShared ; >0 CompData_UD_PD old ! OtherWords",
    "hidden a_copy_beside_a_whole_write_is_a_fault owner ; 1 WriteUniqueFull ; >0 SnpUnique ; 0 SnpResp_I ; >1 CompDBIDResp ; 0 ReadShared ; >0 CompData_SC old ! OtherCopy",
    "hidden a_whole_write_beside_a_copy_is_a_fault owner ; 1 WriteUniqueFull ; >1 CompDBIDResp ! OtherCopy",
    "hidden a_line_is_cleaned_once_its_owner_has_answered owner ; 1 CleanShared ; >0 SnpCleanShared ; 0 SnpRespData_UC_PD new ; >1 Comp_I",
    "hidden a_cleaning_that_asks_no_owner_is_a_fault owner ; 1 CleanShared ; >1 Comp_I ! NoMoment",
    "hidden a_clean_answer_before_the_cleaning_does_not_count owner ; >0 SnpCleanShared ; 0 SnpResp_UC ; 1 CleanShared ; >1 Comp_I ! NoMoment",
    "hidden an_owner_cleans_its_own_copy_and_keeps_it owner ; 0 CleanShared ; >0 Comp_UC ; 0 WriteEvictFull",
    "hidden a_cleaning_waits_for_write_data owner ; 0 WriteBackFull ; 1 CleanShared ; >0 CompDBIDResp ; >1 Comp_SC ! NoMoment",
    "hidden a_line_that_is_made_unique_is_written 0 MakeUnique ; >0 Comp_UC ; 0 CompAck ; 1 ReadShared ; >0 SnpUnique ; 0 SnpResp_I ! NotSent",
    "hidden words_of_a_line_that_is_made_unique_are_its_own 0 MakeUnique ; >0 Comp_UC ; 0 CompAck ; 1 ReadShared ; >0 SnpUnique ; 0 SnpRespData_I_PD new ; >1 CompData_UD_PD new",
    "hidden a_line_that_is_made_unique_beside_a_copy_is_a_fault owner ; 1 MakeUnique ; >1 Comp_UC ! OtherCopy",
    "hidden a_line_that_is_made_invalid_beside_a_copy_is_a_fault owner ; 1 MakeInvalid ; >1 Comp_I ! OtherCopy",
];

/// Lines whose stores are all listed, beside runs whose stores may be hidden.
const LISTED: [&str; 16] = [
    "listed a_dirty_answer_behind_a_store_is_taken owner ; 0 Store(9) ; 1 ReadUnique ; >0 SnpUnique ; 0 SnpRespData_I_PD new ; >1 CompData_UC new",
    "listed a_write_back_without_a_store_is_a_fault owner ; 0 Load(7) ; 0 WriteBackFull ! NotSent",
    "hidden the_home_reads_once_beside_an_owner_that_stored_nothing owner ; 0 Load(7) ; 1 ReadOnce ; >1 CompData_I old ! NoMoment",
    "listed the_home_reads_once_beside_an_owner_that_stored_nothing owner ; 0 Load(7) ; 1 ReadOnce ; >1 CompData_I old",
    "listed the_home_reads_not_once_behind_a_store owner ; 0 Store(9) ; 1 ReadOnce ; >1 CompData_I old ! NoMoment",
    "hidden a_line_is_clean_beside_an_owner_that_stored_nothing owner ; 0 Load(7) ; 1 CleanShared ; >1 Comp_I ! NoMoment",
    "listed a_line_is_clean_beside_an_owner_that_stored_nothing owner ; 0 Load(7) ; 1 CleanShared ; >1 Comp_I",
    "hidden what_is_thrown_away_was_stored_to_where_a_store_is_listed owner ; 1 WriteUniqueFull ; 2 ReadUnique ; >0 SnpMakeInvalid ; 0 SnpResp_I ; >2 CompData_UC old ! Lost",
    "listed what_is_thrown_away_was_stored_to_where_a_store_is_listed owner ; 1 WriteUniqueFull ; 2 ReadUnique ; >0 SnpMakeInvalid ; 0 SnpResp_I ; >2 CompData_UC old",
    "listed what_was_stored_and_thrown_away_is_lost owner ; 0 Store(9) ; 1 WriteUniqueFull ; 2 ReadUnique ; >0 SnpMakeInvalid ; 0 SnpResp_I ; >2 CompData_UC old ! Lost",
    "listed a_line_without_data_is_loaded_behind_a_store_alone 0 CleanUnique ; >0 Comp_UC ; 0 CompAck ; 0 Load(7) ! NotSent",
    "listed a_line_that_is_made_unique_is_loaded 0 MakeUnique ; >0 Comp_UC ; 0 CompAck ; 0 Load(7) ; 0 WriteBackFull ; 0 NonCopyBackWrData ! NotSent",
    "listed another_word_than_the_known_one_is_a_fault owner ; 0 Load(7) ; 0 Load(9) ! OtherWords",
    "listed the_word_behind_a_store_is_any owner ; 0 Load(7) ; 0 Store(9) ; 0 Load(9)",
    "hidden a_dirty_answer_tells_of_a_store_that_is_missing owner ; 1 ReadUnique ; >0 SnpUnique ; 0 SnpRespData_I_PD new",
    "listed a_dirty_answer_without_a_store_is_a_fault owner ; 1 ReadUnique ; >0 SnpUnique ; 0 SnpRespData_I_PD new ! NotSent",
];

/// ReadOnce: the words are those of a moment since its issue.
const READS: [&str; 10] = [
    "hidden a_line_is_read_once_without_a_copy 0 ReadOnce ; >0 CompData_I old ; 0 ReadOnce ; >0 RetryAck ; 0 ReadOnce again ; >0 CompData_I old ; 1 ReadShared ; >1 CompData_UD_PD old ! NoDuty",
    "hidden no_acknowledgement_is_due_of_a_read_once 0 ReadOnce ; >0 CompData_I old ; 0 CompAck ! NotSent",
    "hidden a_copy_behind_a_read_once_is_a_fault 0 ReadOnce ; >0 CompData_SC old ! NotDue",
    "hidden words_that_an_owner_may_have_changed_are_no_answer owner ; 1 ReadOnce ; >1 CompData_I old ! NoMoment",
    "hidden an_owner_that_answers_clean_has_changed_nothing_till_then owner ; 1 ReadOnce ; >0 SnpOnce ; 0 SnpResp_UC ; >1 CompData_I old ; >0 SnpOnce ; 0 SnpRespData_UD new",
    "hidden an_answer_before_the_issue_is_no_moment owner ; >0 SnpOnce ; 0 SnpResp_UC ; 1 ReadOnce ; >1 CompData_I old ! NoMoment",
    "hidden what_an_owner_shows_is_the_answer_though_it_stays_dirty owner ; 1 ReadOnce ; >0 SnpOnce ; 0 SnpRespData_UD new ; >1 CompData_I new",
    "hidden words_from_before_the_ones_that_came_are_a_fault owner ; 1 ReadOnce ; >0 SnpCleanShared ; 0 SnpRespData_UC_PD new ; >1 CompData_I old ! OtherWords",
    "hidden older_words_while_newer_ones_are_on_their_way_are_a_fault owner ; 0 WriteBackFull ; >0 CompDBIDResp ; 1 ReadOnce ; >1 CompData_I old ! NoMoment",
    "hidden words_that_came_since_the_issue_are_the_answer owner ; 0 WriteBackFull ; >0 CompDBIDResp ; 1 ReadOnce ; 0 CopyBackWrData_UD_PD new ; >1 CompData_I new",
];

/// Runs that are taken whole, and so is each tail.
const TAILS: [&str; 4] = [
    "hidden words_of_a_read_once_may_be_older_than_the_value 0 ReadOnce ; 1 ReadUnique ; >1 CompData_UC old ; 1 CompAck ; 1 WriteBackFull ; >0 CompData_I old ; >1 CompDBIDResp ; 1 CopyBackWrData_UD_PD new",
    "tails words_of_a_read_once_may_be_older_than_the_value 0 ReadOnce ; 1 ReadUnique ; >1 CompData_UC old ; 1 CompAck ; 1 WriteBackFull ; >0 CompData_I old ; >1 CompDBIDResp ; 1 CopyBackWrData_UD_PD new",
    "hidden what_is_thrown_away_with_a_request_open_is_a_moment owner ; 0 WriteBackFull ; 2 MakeUnique ; >0 SnpOnce ; 0 SnpRespData_UD new ; 1 CleanShared ; >0 SnpMakeInvalid ; 0 SnpResp_I ; >1 Comp_UC",
    "tails what_is_thrown_away_with_a_request_open_is_a_moment owner ; 0 WriteBackFull ; 2 MakeUnique ; >0 SnpOnce ; 0 SnpRespData_UD new ; 1 CleanShared ; >0 SnpMakeInvalid ; 0 SnpResp_I ; >1 Comp_UC",
];

/// SnpMakeInvalid: a copy is thrown away, and what the home may do then.
const THROWN: [&str; 10] = [
    "hidden a_copy_is_thrown_away_for_a_line_that_is_made owner ; 1 MakeUnique ; >0 SnpMakeInvalid ; 0 SnpResp_I ; >1 Comp_UC ; 1 CompAck ; 0 ReadUnique ; >1 SnpUnique ; 1 SnpRespData_I_PD new ; >0 CompData_UD_PD new",
    "hidden a_copy_is_thrown_away_for_a_line_that_is_written_whole owner ; 1 WriteUniqueFull ; >0 SnpMakeInvalid ; 0 SnpResp_I ; >1 CompDBIDResp ; 1 NonCopyBackWrData new ; 2 ReadShared ; >2 CompData_SC new",
    "hidden the_homes_own_words_are_the_value_once_a_line_is_made_invalid owner ; 1 MakeInvalid ; >0 SnpMakeInvalid ; 0 SnpResp_I ; >1 Comp_I ; 2 ReadShared ; >2 CompData_SC old",
    "hidden what_may_be_lost_is_served_to_nobody owner ; 1 MakeInvalid ; >0 SnpMakeInvalid ; 0 SnpResp_I ; 2 ReadShared ; >2 CompData_SC old ! Lost",
    "hidden what_may_be_lost_stays_so_behind_a_retry owner ; 1 MakeUnique ; >0 SnpMakeInvalid ; 0 SnpResp_I ; >1 RetryAck ; 2 ReadShared ; >2 CompData_UC old ! Lost",
    "hidden a_copy_that_nobody_stored_to_is_no_loss owner ; 0 WriteEvictFull ; 1 MakeUnique ; >0 SnpMakeInvalid ; 0 SnpResp_I ; 2 ReadShared ; >2 CompData_UC old",
    "hidden a_cleaning_finds_no_moment_while_the_value_may_be_lost owner ; 1 MakeUnique ; >0 SnpMakeInvalid ; 0 SnpResp_I ; 2 CleanShared ; >2 Comp_I ! NoMoment",
    "hidden nothing_is_thrown_away_for_nobody owner ; 1 ReadUnique ; >0 SnpMakeInvalid ! NoOverwriter",
    "hidden nothing_is_thrown_away_for_its_own_agent owner ; 1 MakeUnique ; >1 SnpMakeInvalid ! NoOverwriter",
    "hidden a_copy_that_is_to_be_thrown_away_is_not_shown owner ; 1 MakeUnique ; >0 SnpMakeInvalid ; 0 SnpRespData_I_PD new ! NotSent",
];

/// Short runs of one cache line.
const TRACES: [&str; 11] = [
    "hidden dirty_data_that_are_passed_on_are_taken owner ; 1 ReadUnique ; >0 SnpUnique ; 0 SnpRespData_I_PD new ; >1 CompData_UD_PD new ; 1 CompAck",
    "hidden a_clean_answer_shows_that_nothing_was_stored owner ; 1 ReadUnique ; >0 SnpUnique ; 0 SnpResp_I ; >1 CompData_UC old",
    "hidden a_holder_that_is_forgotten_is_a_fault owner ; 1 ReadUnique ; >1 CompData_UC old ! OtherCopy",
    "hidden a_completion_before_the_answer_is_a_fault owner ; 1 ReadUnique ; >0 SnpUnique ; >1 CompData_UC old ! OtherCopy",
    "hidden stale_words_are_a_fault owner ; 1 ReadUnique ; >0 SnpUnique ; 0 SnpRespData_I_PD new ; >1 CompData_UC old ! OtherWords",
    "hidden dirty_data_that_nobody_has_are_a_fault owner ; 1 ReadUnique ; >0 SnpUnique ; 0 SnpResp_I ; >1 CompData_UD_PD old ! NoDuty",
    "hidden a_snoop_while_compack_is_due_is_a_fault 0 ReadShared ; >0 CompData_SC old ; >0 SnpShared ! Busy",
    "hidden an_owner_writes_back_what_it_shared owner ; 1 ReadShared ; >0 SnpShared ; 0 SnpRespData_SD new ; >1 CompData_SC new ; 1 CompAck ; 0 WriteBackFull ; >0 CompDBIDResp ; 0 CopyBackWrData_SD_PD new ; 1 CleanUnique ; >1 Comp_UC ; 1 CompAck",
    "hidden what_was_cancelled_is_not_sent_again owner ; 0 WriteBackFull ; >0 RetryAck ; 1 ReadShared ; 0 WriteBackFull ; 0 WriteBackFull again ! NotSent",
    "hidden a_write_back_is_sent_again_behind_a_snoop owner ; 0 WriteBackFull ; >0 RetryAck ; 1 ReadShared ; >0 SnpShared ; 0 SnpRespData_SD new ; 0 WriteBackFull again ; >0 CompDBIDResp ; 0 CopyBackWrData_SD_PD new",
    "hidden an_agent_beyond_the_last_is_refused 32 ReadShared ! NoAgent",
];

/// What loads and stores tell of words.
const WORDS: [&str; 17] = [
    "listed a_load_has_the_word_that_was_stored owner ; 0 Store(9) ; 0 Load(7) ! OtherWords ; 0 Load(9)",
    "listed data_have_the_words_that_were_stored owner ; 0 Store(9) ; 1 ReadUnique ; >0 SnpUnique ; 0 SnpRespData_I_PD later ! OtherWords ; 0 SnpRespData_I_PD new",
    "listed a_word_that_was_loaded_is_known 0 MakeUnique ; >0 Comp_UC ; 0 CompAck ; 0 Load(7) ; 0 Store(5) ; 0 Load(9) ! OtherWords",
    "listed a_line_has_eight_words 0 MakeUnique ; >0 Comp_UC ; 0 CompAck ; 0 Load(7) ; 0 Load(beyond) ! NotSent",
    "hidden a_dirty_copy_stays_while_its_request_is_open owner ; 0 WriteBackFull ; 0 Load(9) ; 0 Load(5) ; 0 Load(7) ! OtherWords ; 0 Load(9)",
    "hidden its_write_data_have_the_words_that_were_loaded owner ; 0 WriteBackFull ; 0 Load(9) ; >0 CompDBIDResp ; 0 CopyBackWrData_UD_PD old ! OtherWords ; 0 CopyBackWrData_UD_PD new",
    "hidden so_does_its_answer owner ; 0 WriteBackFull ; 0 Load(9) ; 1 ReadUnique ; >0 SnpUnique ; 0 SnpRespData_I_PD old ! OtherWords ; 0 SnpRespData_I_PD new",
    "hidden a_retried_request_may_be_cancelled_and_the_copy_stored_to owner ; 0 WriteBackFull ; 0 Load(9) ; >0 RetryAck ; 0 Load(7) ; 0 WriteBackFull ; 0 Load(7)",
    "hidden a_load_of_another_word_tells_of_that owner ; 0 WriteBackFull ; 0 Load(9) ; >0 RetryAck ; 0 Load(7) ; 0 WriteBackFull again ! NotSent ; 0 WriteBackFull",
    "hidden another_request_leaves_no_words owner ; 0 WriteBackFull ; 0 Load(9) ; >0 RetryAck ; 0 WriteBackFull ; 0 Load(7)",
    "hidden one_that_is_sent_again_leaves_the_words_of_its_copy owner ; 0 WriteBackFull ; 0 Load(9) ; >0 RetryAck ; 0 WriteBackFull again ; 0 Load(7) ! OtherWords",
    "hidden a_load_meanwhile_tells_its_word owner ; 0 WriteBackFull ; >0 RetryAck ; 0 Load(9) ; 0 WriteBackFull again ; >0 CompDBIDResp ; 0 CopyBackWrData_UD_PD old ! OtherWords ; 0 CopyBackWrData_UD_PD new",
    "hidden what_was_loaded_before_the_request_is_forgotten 0 MakeUnique ; >0 Comp_UC ; 0 CompAck ; 0 Load(7) ; 0 WriteBackFull ; 0 Load(9)",
    "hidden an_answer_of_other_words_tells_that_a_retried_request_is_cancelled owner ; 0 WriteBackFull ; >0 RetryAck ; 0 Load(9) ; 1 ReadShared ; >0 SnpShared ; 0 SnpRespData_SC_PD old ; 0 WriteBackFull again ! NotSent",
    "hidden an_answer_of_the_loaded_words_leaves_that_open owner ; 0 WriteBackFull ; >0 RetryAck ; 0 Load(9) ; 1 ReadShared ; >0 SnpShared ; 0 SnpRespData_SC_PD new ; 0 WriteBackFull again",
    "hidden an_answer_of_words_that_nobody_loaded_leaves_that_open owner ; 0 WriteBackFull ; 0 Load(5) ; >0 RetryAck ; 1 ReadShared ; >0 SnpShared ; 0 SnpRespData_SC_PD later ; 0 WriteBackFull again",
    "listed where_all_stores_are_listed_an_answer_tells_of_no_cancel owner ; 0 Store(9) ; 0 WriteBackFull ; >0 RetryAck ; 1 ReadShared ; >0 SnpShared ; 0 SnpRespData_SC_PD old ! OtherWords ; 0 SnpRespData_SC_PD new ; 0 WriteBackFull again",
];

/// Flits of caches as they come to the home, by sets of what their agents may be.
const ARRIVING: [&str; 16] = [
    "arriving a_request_comes_from_no_copy 0 ReadShared",
    "arriving each_agent_has_one 0 ReadShared ; 1 ReadUnique ; 2 WriteUniqueFull",
    "arriving one_beside_an_open_one 0 ReadShared ; 0 ReadShared ! NotSent",
    "arriving one_beside_it_of_another_kind 0 ReadShared ; 0 MakeUnique ! NotSent",
    "arriving nothing_changes_then 0 Evict ! NotSent ; 0 ReadOnce",
    "arriving no_copy_is_given_up 0 Evict ! NotSent",
    "arriving no_dirty_copy_is_written 0 WriteBackFull ! NotSent",
    "arriving no_clean_copy_is_written 0 WriteEvictFull ! NotSent",
    "arriving none_was_retried 0 ReadShared again ! NotSent",
    "arriving no_CompAck_is_due 0 CompAck ! NotSent",
    "arriving no_snoop_is_answered 0 SnpResp_I ! NotSent",
    "arriving nor_behind_a_request 0 ReadShared ; 0 SnpResp_I ! NotSent",
    "arriving no_write_data_are_due 0 CopyBackWrData_I ! NotSent",
    "arriving nor_those_of_a_whole_line 0 WriteUniqueFull ; 0 NonCopyBackWrData ! NotSent",
    "arriving no_loads_come 0 Load(7) ! NotSent ; 0 Load(beyond) ! NotSent",
    "arriving no_such_agent 32 ReadShared ! NotSent",
];
