// One item of each list, and one onto each.
ghost use Rattle.std.specs.Prelude.{◌≡◌, ◌≤◌, ◌<◌, List, [], length, reverse, vec_capacity};
ghost use Rattle.lane_waves.specs.Dealing.{PopsEach, HaveOne, HaveRoomForOne};

/// Lists, one item of each, and an empty list with room for as many lists.
pub struct Dealt<T> {
    pub rows: Vec<Vec<T>>,
    pub items: Vec<T>,
    pub spare: Vec<Vec<T>>,
}

/// Takes the last item of each list.
pub fn deal<T>(mut rows: Vec<Vec<T>>, mut items: Vec<T>, mut spare: Vec<Vec<T>>) -> Dealt<T>
    requires some { HaveOne rows.items }
    requires empty { (items.items ≡ []) × (spare.items ≡ []) }
    requires room { (length rows.items ≤ vec_capacity items) × (length rows.items ≤ vec_capacity spare) }
    ensures taken { PopsEach rows.items result.rows.items result.items.items }
    ensures empty { result.spare.items ≡ [] }
    ensures room { (vec_capacity result.rows ≡ vec_capacity spare)
        × (vec_capacity result.spare ≡ vec_capacity rows) }
{
    while let Some(mut row) = rows.pop() {
        let Some(item) = row.pop() else {
            unreachable!()
        };
        items.push_reserved(item);
        spare.push_reserved(row);
    }
    items.reverse();
    spare.reverse();
    Dealt {
        rows: spare,
        items,
        spare: rows,
    }
}

/// Adds an item to each list.
pub fn gather<T>(mut rows: Vec<Vec<T>>, mut items: Vec<T>, mut spare: Vec<Vec<T>>) -> Dealt<T>
    requires each { length items.items ≡ length rows.items }
    requires free { HaveRoomForOne rows.items }
    requires empty { spare.items ≡ [] }
    requires room { length rows.items ≤ vec_capacity spare }
    ensures added { PopsEach result.rows.items rows.items items.items }
    ensures empty { (result.spare.items ≡ []) × (result.items.items ≡ []) }
    ensures room { (vec_capacity result.rows ≡ vec_capacity spare)
        × (vec_capacity result.spare ≡ vec_capacity rows) × (vec_capacity result.items ≡ vec_capacity items) }
{
    while let Some(mut row) = rows.pop() {
        let Some(item) = items.pop() else {
            unreachable!()
        };
        row.push_reserved(item);
        spare.push_reserved(row);
    }
    spare.reverse();
    Dealt {
        rows: spare,
        items,
        spare: rows,
    }
}
