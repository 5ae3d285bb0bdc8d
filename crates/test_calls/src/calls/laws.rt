//! The lemmas as functions, each called once at concrete types.
use scripts::laws as script_laws;
use servo_arc::counting_core::laws as core_laws;
use servo_arc::shared_count::laws as history_laws;
use servo_arc::table::laws as table_laws;
use servo_arc::union_table::laws as union_laws;
use servo_arc::word::laws as word_laws;

macro_rules! call_each {
    ($module:ident: $($law:ident)*) => {
        $($module::$law();)*
    };
    ($module:ident at $type:ty: $($law:ident)*) => {
        $($module::$law::<$type>();)*
    };
}

#[test]
fn the_laws_hold_at_types() {
    call_each!(core_laws at u32: each_step_has_one_answer barred_exactly_if_not_permitted live_handles_live
        count_is_the_number_of_live_handles no_lower_wraps no_count_passes_limit marked_exactly_if_answered
        marked_block_keeps_its_value given_up_by_last_end given_up_once full_exactly_at_limit born_straight_after_read
        lost_raises_are_bounded sole_handle_is_the_only_one sole_drop_gives_up answers_are_by_the_word
        steps_are_those_of_handles runs_are_traces traces_are_runs);
    call_each!(word_laws: runs_are_counted marks_stay no_marked_block_is_given);
    call_each!(table_laws at u32: number_of_slots_stays other_slots_stay only_done_changes);
    union_laws::number_of_slots_stays::<u32, u8>();
    union_laws::other_slots_stay::<u32, u8>();
    union_laws::only_done_changes::<u32, u8>();
    call_each!(history_laws: beginnings_are_legal handles_are_owned calls_are_of_passes marked_exactly_if_called
        last_is_told_once one_end_is_last);
    call_each!(script_laws: each_text_has_its_lines each_line_is_one_step each_line_asks_one_thing_of_a_table);
}
