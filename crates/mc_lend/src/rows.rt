// The lists of desks, opened while some are lent.
ghost use Rattle.std.specs.Prelude.{◌≡◌, ◌≤◌, ◌<◌, ◌+◌, ◌++◌, ◌∷◌, [], length, true, vec_len, vec_capacity};
ghost use Rattle.std.specs.List.{list_all};
ghost use Rattle.mc_lend.specs.Rows.{AllFit, is_empty_list, lists_of};

use crate::lending::take_first;
use mc_base::List;
use std::alloc::Global;
use std::mem::replace;

// Opens lists behind other rows, and leaves none in them.
pub(crate) fn open_lists<T>(alloc: Global, lists: &mut [List<T>], rows: &mut Vec<Vec<T>>)
    requires room { vec_len rows.old + length lists.old ≤ vec_capacity rows.old }
    requires fit { AllFit rows.old.items }
    ensures opened { lists_of rows.new.items ≡ lists_of rows.old.items ++ lists.old }
    ensures fit { AllFit rows.new.items }
    ensures empty { list_all is_empty_list lists.new ≡ true }
    ensures many { length lists.new ≡ length lists.old }
{
    let Some((list, lists)) = lists.split_first_mut() else {
        return;
    };
    open_list(alloc, list, rows);
    open_lists(alloc, lists, rows);
}

// Opens a list behind other rows, and leaves none in it.
fn open_list<T>(alloc: Global, list: &mut List<T>, rows: &mut Vec<Vec<T>>)
    requires room { vec_len rows.old < vec_capacity rows.old }
    requires fit { AllFit rows.old.items }
    ensures opened { lists_of rows.new.items ≡ lists_of rows.old.items ++ list.old ∷ [] }
    ensures fit { AllFit rows.new.items }
    ensures empty { is_empty_list list.new ≡ true }
    ensures len { vec_len rows.new ≡ vec_len rows.old + 1 }
    ensures capacity { vec_capacity rows.new ≡ vec_capacity rows.old }
{
    rows.push_reserved(replace(list, List::new(alloc)).into_vec());
}

// Closes rows again, each in the list of its place, which has nothing.
pub(crate) fn close_lists<T>(lists: &mut [List<T>], rows: &mut Vec<Vec<T>>)
    requires many { length lists.old ≡ length rows.old.items }
    requires empty { list_all is_empty_list lists.old ≡ true }
    ensures closed { lists.new ≡ lists_of rows.old.items }
    ensures left { rows.new.items ≡ [] }
{
    let Some((list, lists)) = lists.split_first_mut() else {
        return;
    };
    close_list(list, take_first(rows));
    close_lists(lists, rows);
}

// Puts a row in the place of a list that has nothing.
fn close_list<T>(list: &mut List<T>, row: Vec<T>)
    requires empty { is_empty_list list.old ≡ true }
    ensures { list.new ≡ row.items }
{
    replace(list, List::from_vec(row))
        .into_vec()
        .destroy_empty();
}
