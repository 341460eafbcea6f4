// Records that need no key, read and spelled again.

use crate::signed;
use crate::telling::back;
use nb_body::{
    EndorsedOrder, Enrolment, Funding, GoodsHead, GoodsRequest, PaymentRequest, PriceRequest,
    Quote, StatusQuery,
};
use nb_lines::Told;
use nb_msgs::BodyFault;

/// The record of this name, or the message of this kind, that the bytes spell, in words.
pub fn read(told: &mut Told, name: &str, bytes: &[u8]) -> Result<(), BodyFault> {
    match name {
        "endorsed-order" => endorsed_order(told, bytes),
        "status-query" => status_query(told, bytes),
        "enrolment" => enrolment(told, bytes),
        "funding" => funding(told, bytes),
        "price-request" => price_request(told, bytes),
        "quote" => quote(told, bytes),
        "goods-request" => goods_request(told, bytes),
        "goods-head" => goods_head(told, bytes),
        "payment-request" => payment_request(told, bytes),
        _ => signed::read(told, name, bytes),
    }
}

fn endorsed_order(told: &mut Told, bytes: &[u8]) -> Result<(), BodyFault> {
    let read = EndorsedOrder::read(bytes)?;
    let fields = (read.merchant, read.sealed.as_slice());
    back(told, &fields, read.spelled().as_slice() == bytes);
    Ok(())
}

fn status_query(told: &mut Told, bytes: &[u8]) -> Result<(), BodyFault> {
    let read = StatusQuery::read(bytes)?;
    back(told, &read, read.spelled().as_slice() == bytes);
    Ok(())
}

fn enrolment(told: &mut Told, bytes: &[u8]) -> Result<(), BodyFault> {
    let read = Enrolment::read(bytes)?;
    back(told, &read, read.spelled().as_slice() == bytes);
    Ok(())
}

fn funding(told: &mut Told, bytes: &[u8]) -> Result<(), BodyFault> {
    let read = Funding::read(bytes)?;
    back(told, &read, read.spelled().as_slice() == bytes);
    Ok(())
}

fn price_request(told: &mut Told, bytes: &[u8]) -> Result<(), BodyFault> {
    let read = PriceRequest::read(bytes)?;
    let fields = (read.transaction, read.product, read.request.as_slice());
    back(told, &fields, read.spelled().as_slice() == bytes);
    Ok(())
}

fn quote(told: &mut Told, bytes: &[u8]) -> Result<(), BodyFault> {
    let read = Quote::read(bytes)?;
    back(told, &read, read.spelled().as_slice() == bytes);
    Ok(())
}

fn goods_request(told: &mut Told, bytes: &[u8]) -> Result<(), BodyFault> {
    let read = GoodsRequest::read(bytes)?;
    back(told, &read, read.spelled().as_slice() == bytes);
    Ok(())
}

fn goods_head(told: &mut Told, bytes: &[u8]) -> Result<(), BodyFault> {
    let read = GoodsHead::read(bytes)?;
    back(told, &read, read.spelled().as_slice() == bytes);
    Ok(())
}

fn payment_request(told: &mut Told, bytes: &[u8]) -> Result<(), BodyFault> {
    let read = PaymentRequest::read(bytes)?;
    let fields = (read.transaction, read.order.as_slice());
    back(told, &fields, read.spelled().as_slice() == bytes);
    Ok(())
}
