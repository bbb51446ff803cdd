// What a copy takes, or why it is refused (W3C WebCodecs, 'Compute Layout and Allocation Size').
ghost use Rattle.std.specs.Prelude.{◌≡◌, ◌≤◌, ◌<◌, ◌+◌, ◌*◌, ◌^◌, ◌&&◌, ◌==◌, nat_lt, nat_le, [], ◌∷◌, true, false, length, Ok, Err};
ghost use Rattle.std.specs.Prelude.{Option, Some, None, is_some, IfOk, IfErr, IfSome};
ghost use Rattle.std.specs.Option.{option_copied};
ghost use Rattle.std.specs.List.{list_all};
ghost use Rattle.wc_base.specs.declared.error.DomError.TheVariants as dom;
ghost use Rattle.picture_planes.specs.Planes.{picture_size, plane_size, planes_in, planes_of};
ghost use Rattle.wc_video.specs.Layouts.{rect_in, begins_on, is_rect_of, plane_copy};
ghost use Rattle.wc_video.specs.Layouts.{tight_from, copies_from, copies_in, is_fit, end_of, meets};
ghost use Rattle.wc_video.specs.Layouts.{are_apart, plan_of, layout_of, layouts_at};
ghost use Rattle.wc_video.specs.Copies.{IsThere, IsLaid};

use crate::layout::{Placement, Plan, PlaneCopy, PlaneLayout, Rect};
use picture_planes::{Plane, Planes, planes_of};
use wc_base::{DomError, PictureShape};

/// The planes of a copy of a picture, of which there are less than 2^64 bytes, or its refusal.
pub(crate) fn plan_of(
    shape: &PictureShape,
    rect: Option<Rect>,
    layout: Option<&[PlaneLayout]>,
) -> Result<Plan, DomError>
    requires { picture_size shape.now < 2 ^ 64 }
    ensures ok { IfOk result
        (λ p. plan_of shape.now rect (option_copied layout.entry) ≡ Ok (copies_in p)) }
    ensures laid { IfOk result (IsLaid (picture_size shape.now)) }
    ensures apart { IfOk result (λ p. are_apart (copies_in p) ≡ true) }
    ensures err { IfErr result
        (λ e. plan_of shape.now rect (option_copied layout.entry) ≡ Err e) }
{
    let r = rect.unwrap_or(whole(shape));
    let planes = planes_of(shape.format);
    if !is_rect_of(shape, &planes, &r) {
        return Err(DomError::TypeErr);
    }
    let plan = match layout {
        Some(layouts) => laid_out(shape, &planes, &r, layouts),
        None => tight(shape, &planes, &r),
    };
    match plan {
        Some(p) => apart(p),
        None => Err(DomError::TypeErr),
    }
}

fn apart(p: Plan) -> Result<Plan, DomError>
    requires { list_all is_fit (copies_in p) ≡ true }
    ensures ok { IfOk result (λ q. (q ≡ p) × (are_apart (copies_in p) ≡ true)) }
    ensures err { IfErr result
        (λ e. (e ≡ dom.TypeErr) × (are_apart (copies_in p) ≡ false)) }
{
    if are_apart(&p) {
        Ok(p)
    } else {
        Err(DomError::TypeErr)
    }
}

fn whole(shape: &PictureShape) -> Rect
    ensures { result ≡ rect_in shape.now None }
{
    Rect {
        x: 0,
        y: 0,
        width: shape.width,
        height: shape.height,
    }
}

fn begins_on(r: &Rect, p: Plane) -> bool
    ensures { result ≡ begins_on r.now p }
{
    r.x % p.across() == 0 && r.y % p.down() == 0
}

/// Whether a rect is not empty, lies in a picture, and begins where each plane has a sample.
fn is_rect_of(shape: &PictureShape, planes: &Planes, r: &Rect) -> bool
    requires { planes_in planes.now ≡ planes_of shape.now.format }
    ensures { result ≡ is_rect_of shape.now r.now }
{
    r.width != 0
        && r.height != 0
        && r.x as u64 + r.width as u64 <= shape.width as u64
        && r.y as u64 + r.height as u64 <= shape.height as u64
        && all_begin(planes, r)
}

fn all_begin(planes: &Planes, r: &Rect) -> bool
    ensures { result ≡ list_all (begins_on r.now) (planes_in planes.now) }
{
    let third = match planes.third {
        Some(p) => begins_on(r, p),
        None => true,
    };
    begins_on(r, planes.first) && begins_on(r, planes.second) && third
}

/// A plane of a copy, whose first byte stands at a place of the picture's; none where its rows run into each
/// other, or 32 bits do not count its end.
fn plane_copy(
    shape: &PictureShape,
    r: &Rect,
    at: usize,
    p: Plane,
    to: Placement,
) -> Option<PlaneCopy>
    requires inside { is_rect_of shape.now r.now ≡ true }
    requires plane { begins_on r.now p ≡ true }
    requires room { at + plane_size p shape.now.width shape.now.height < 2 ^ 64 }
    ensures some { IfSome result (λ c. c ≡ plane_copy at shape.now r.now p (layout_of to)) }
    ensures there { IfSome result
        (IsThere (at + plane_size p shape.now.width shape.now.height)) }
    ensures fit { is_some result ≡ is_fit (plane_copy at shape.now r.now p (layout_of to)) }
{
    let row = p.row_bytes(r.width);
    let rows = p.rows(r.height);
    let layout = fitting(to, row, rows)?;
    let step = p.row_bytes(shape.width);
    let above = step * (r.y / p.down()) as usize;
    let before = p.sample_size() * (r.x / p.across()) as usize;
    Some(PlaneCopy {
        layout,
        from: at + above + before,
        step,
        row,
        rows,
    })
}

/// A placement in 32 bits, if it takes so many rows.
fn fitting(to: Placement, row: usize, rows: usize) -> Option<PlaneLayout>
    requires { 1 ≤ rows }
    ensures some { IfSome result (λ l. l ≡ layout_of to) }
    ensures fit { is_some result ≡
        (nat_le row to.stride && nat_lt (to.offset + to.stride * rows) (2 ^ 32)) }
{
    let size = to.stride.checked_mul(rows)?;
    let end = to.offset.checked_add(size)?;
    if to.stride < row || end > u32::MAX as usize {
        return None;
    }
    Some(PlaneLayout {
        offset: to.offset as u32,
        stride: to.stride as u32,
    })
}

/// The planes of a copy; none where one does not fit.
fn plan_at(
    shape: &PictureShape,
    planes: &Planes,
    r: &Rect,
    first: Placement,
    second: Placement,
    third: Placement,
) -> Option<Plan>
    requires planes { planes_in planes.now ≡ planes_of shape.now.format }
    requires inside { is_rect_of shape.now r.now ≡ true }
    requires room { picture_size shape.now < 2 ^ 64 }
    ensures some { let layouts = layouts_at planes.now first second third in IfSome result
        (λ p. copies_in p ≡ copies_from 0 shape.now r.now (planes_in planes.now) layouts) }
    ensures laid { IfSome result (IsLaid (picture_size shape.now)) }
    ensures fit { let layouts = layouts_at planes.now first second third in is_some result ≡
        list_all is_fit (copies_from 0 shape.now r.now (planes_in planes.now) layouts) }
{
    let y = plane_copy(shape, r, 0, planes.first, first)?;
    let after = planes.first.size(shape.width, shape.height);
    let u = plane_copy(shape, r, after, planes.second, second)?;
    let Some(last) = planes.third else {
        return Some(Plan {
            first: y,
            second: u,
            third: None,
        });
    };
    let after = after + planes.second.size(shape.width, shape.height);
    let v = plane_copy(shape, r, after, last, third)?;
    Some(Plan {
        first: y,
        second: u,
        third: Some(v),
    })
}

/// The planes of a copy in a given layout; none where it has another number of planes, or one does not fit.
fn laid_out(
    shape: &PictureShape,
    planes: &Planes,
    r: &Rect,
    layouts: &[PlaneLayout],
) -> Option<Plan>
    requires planes { planes_in planes.now ≡ planes_of shape.now.format }
    requires inside { is_rect_of shape.now r.now ≡ true }
    requires room { picture_size shape.now < 2 ^ 64 }
    ensures some { IfSome result (λ p. copies_in p ≡
        copies_from 0 shape.now r.now (planes_in planes.now) layouts.now) }
    ensures laid { IfSome result (IsLaid (picture_size shape.now)) }
    ensures fit { is_some result ≡ (length layouts.now == length (planes_in planes.now)
        && list_all is_fit
        (copies_from 0 shape.now r.now (planes_in planes.now) layouts.now)) }
{
    let count = planes.count();
    if layouts.len() != count {
        return None;
    }
    let first = placement(layouts[0]);
    let second = placement(layouts[1]);
    let third = placement(layouts[count - 1]);
    plan_at(shape, planes, r, first, second, third)
}

fn placement(l: PlaneLayout) -> Placement
    ensures { layout_of result ≡ l }
{
    Placement {
        offset: l.offset as usize,
        stride: l.stride as usize,
    }
}

/// The planes of a copy without space between its rows and planes; none where one does not fit.
fn tight(shape: &PictureShape, planes: &Planes, r: &Rect) -> Option<Plan>
    requires planes { planes_in planes.now ≡ planes_of shape.now.format }
    requires inside { is_rect_of shape.now r.now ≡ true }
    requires room { picture_size shape.now < 2 ^ 64 }
    ensures some { let layouts = tight_from 0 r.now (planes_in planes.now) in IfSome result
        (λ p. copies_in p ≡ copies_from 0 shape.now r.now (planes_in planes.now) layouts) }
    ensures laid { IfSome result (IsLaid (picture_size shape.now)) }
    ensures fit { let layouts = tight_from 0 r.now (planes_in planes.now) in is_some result ≡
        list_all is_fit (copies_from 0 shape.now r.now (planes_in planes.now) layouts) }
{
    let first = tight_plane(r, planes.first, 0);
    let after = planes.first.size(r.width, r.height);
    let second = tight_plane(r, planes.second, after);
    let after = after + planes.second.size(r.width, r.height);
    let third = tight_plane(r, planes.third.unwrap_or(planes.second), after);
    plan_at(shape, planes, r, first, second, third)
}

fn tight_plane(r: &Rect, p: Plane, at: usize) -> Placement
    ensures { layout_of result ∷ [] ≡ tight_from at r.now (p ∷ []) }
{
    Placement {
        offset: at,
        stride: p.row_bytes(r.width),
    }
}

/// Behind the last byte of a plane's range.
pub(crate) fn end_of(c: &PlaneCopy) -> u32
    requires { is_fit c.now ≡ true }
    ensures { result ≡ end_of c.now }
{
    c.layout.offset + (c.layout.stride as usize * c.rows) as u32
}

/// Whether some byte lies in the ranges of both.
fn meet(c: &PlaneCopy, d: &PlaneCopy) -> bool
    requires first { is_fit c.now ≡ true }
    requires second { is_fit d.now ≡ true }
    ensures { result ≡ meets c.now d.now }
{
    c.layout.offset.max(d.layout.offset) < end_of(c).min(end_of(d))
}

/// Whether no two planes meet.
fn are_apart(p: &Plan) -> bool
    requires { list_all is_fit (copies_in p.now) ≡ true }
    ensures { result ≡ are_apart (copies_in p.now) }
{
    if meet(&p.first, &p.second) {
        return false;
    }
    match &p.third {
        Some(c) => !meet(&p.first, c) && !meet(&p.second, c),
        None => true,
    }
}
